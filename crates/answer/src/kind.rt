// The kinds of requests.

ghost use Rattle.answer.specs.Steps.{GivesKind};

use answer_matrix::Asked;
use refusal::Refusal;
use rows::Family;

// What a request asks for.
#[derive(Clone, Copy, Debug, PartialEq, Eq)]
pub enum Kind {
    Search(Family),
    Matrix(Asked),
    Survey,
    Walk,
}

// The kind of a number.
impl TryFrom<u32> for Kind {
    type Error = Refusal;

    ghost try_from_gives = { GivesKind };

    fn try_from(number: u32) -> Result<Kind, Refusal> {
        match number {
            1 | 5 => Ok(Kind::Search(answer_row::family(number))),
            2 => Ok(Kind::Matrix(Asked::Check)),
            3 => Ok(Kind::Survey),
            4 => Ok(Kind::Matrix(Asked::Gates)),
            6 => Ok(Kind::Walk),
            _ => Err(Refusal::Kind),
        }
    }
}
