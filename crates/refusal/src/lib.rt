// Why a request or a call is refused. What a call yields is a `Result` with such a reason.
#![tactic(auto)]

ghost use Rattle.std.specs.Prelude.{◌≡◌};
ghost use Rattle.refusal.specs.Refusals.{number_of};

// The reasons of document 01. The definition `number_of` gives the number of each.
#[derive(Clone, Copy, Debug, PartialEq, Eq)]
pub enum Refusal {
    Form,
    Kind,
    PolynomialRange,
    Reducible,
    OrderRange,
    CountRange,
    ValueRange,
    BadCandidate,
    NoRow,
    ShortSpace,
}

// The number of a refusal.
impl From<Refusal> for u32 {
    ghost from_gives = { λ reason number. number ≡ number_of reason };

    fn from(reason: Refusal) -> u32 {
        match reason {
            Refusal::Form => 1,
            Refusal::Kind => 2,
            Refusal::PolynomialRange => 3,
            Refusal::Reducible => 4,
            Refusal::OrderRange => 5,
            Refusal::CountRange => 6,
            Refusal::ValueRange => 7,
            Refusal::BadCandidate => 8,
            Refusal::NoRow => 9,
            Refusal::ShortSpace => 10,
        }
    }
}
