// The search for the lightest row: of all rows over the candidates whose Hadamard matrix is an involution and MDS, or whose circulant matrix
// is MDS, the one with the least sum of XOR counts, among equal sums with the least depth, and the first in dictionary order among equals.
#![tactic(auto)]

ghost use Rattle.std.specs.Prelude.{◌≡◌, MatchResult};
ghost use Rattle.refusal.specs.Refusals.{number_of, first_number};
ghost use Rattle.search.specs.Answer.{brief_faults, search_answer, says_search};

use field::table::Field;
use lightest::lightest_row;
use refusal::Refusal;
use rows::Family;

mod front;

// The lightest row, zeros behind its entries, and the sum of its counts.
#[derive(Clone, Copy, Debug, PartialEq, Eq)]
pub struct LightestRow {
    pub sum: u32,
    pub row: [u8; 8],
}

// The answer of a search for a matrix of a family with this polynomial and order over the candidates, or the refusal.
pub fn search_for(
    family: Family,
    p: u32,
    n: u32,
    candidates: &[u32],
) -> Result<LightestRow, Refusal>
    ensures { says_search result ≡ search_answer family p n candidates.now }
{
    let field = checked_brief(family, p, n, candidates)?;
    let best = lightest_row(family, field, n as usize, candidates).ok_or(Refusal::NoRow)?;
    let row = best.row;
    Ok(LightestRow {
        sum: best.count,
        row,
    })
}

// The field of a brief that is not refused; else the reason, with a number from 3 to 8.
pub fn checked_brief(family: Family, p: u32, n: u32, candidates: &[u32]) -> Result<Field, Refusal>
    ensures { MatchResult result (λ field. (field.polynomial ≡ p) × (first_number (brief_faults family p n candidates.now) ≡ 0))
        (λ reason. number_of reason ≡ first_number (brief_faults family p n candidates.now)) }
{
    let field = Field::try_from(p)?;
    if front::is_wrong_order(family, n) {
        return Err(Refusal::OrderRange);
    }
    if front::is_wrong_count(family, n, candidates.len()) {
        return Err(Refusal::CountRange);
    }
    if front::some_too_large(field, candidates) {
        return Err(Refusal::ValueRange);
    }
    if front::some_bad(candidates) {
        return Err(Refusal::BadCandidate);
    }
    Ok(field)
}
