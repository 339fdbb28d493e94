// One request text to one answer text.
#![tactic(auto)]

ghost use Rattle.std.specs.Prelude.{◌≤◌};
ghost use Rattle.text.specs.Reading.{values_from};
ghost use Rattle.reply.specs.Due.{request_with, kinds, kind_among, due_to};
ghost use Rattle.reply.specs.Answered.{RepliedBy, Answered, AnsweredBy};

use crate::kind::Kind;
use refusal::Refusal;
use reply::refuse;
use text::Header;

mod kind;

// Answers a request in form by its kind. The values stand in the part of the request text that follows line one.
fn answer_kind(part: &[u8], space: &mut [u8], header: Header) -> Result<usize, Refusal>
    requires { header.budget ≤ 999999 }
    ensures { RepliedBy (due_to (kind_among kinds header.kind) (request_with header.polynomial header.order header.budget (values_from part.now 0 header.count)))
        space.old space.new result }
{
    match Kind::try_from(header.kind) {
        Err(reason) => refuse(space, reason),
        Ok(Kind::Search(family)) => answer_row::search_row(part, space, header, family),
        Ok(Kind::Matrix(asked)) => answer_matrix::of_matrix(part, space, header, asked),
        Ok(Kind::Survey) => answer_survey::survey(
            part,
            space,
            header.polynomial,
            header.order,
            header.count,
        ),
        Ok(Kind::Walk) => answer_row::walk_row(part, space, header),
    }
}

// Answers a request text in the lent space: the length of the answer, or the reason of the refusal.
pub fn answer(request: &[u8], space: &mut [u8]) -> Result<usize, Refusal>
    ensures { AnsweredBy request.now space.old space.new result }
{
    match text::read_header(request) {
        Err(reason) => refuse(space, reason),
        Ok(header) => {
            let part = &request[text::line_one_length(header.kind)..];
            answer_kind(part, space, header)
        }
    }
}

// The same for callers that lend a place for the length, as those in C: the number is returned, and the length is stored, 0 where the request is
// refused.
pub fn rowfind_answer(request: &[u8], space: &mut [u8], length: &mut usize) -> u32
    ensures { Answered request.now space.old space.new result length.new }
{
    let reply = answer(request, space);
    match reply {
        Ok(size) => {
            *length = size;
            0
        }
        Err(reason) => {
            *length = 0;
            u32::from(reason)
        }
    }
}
