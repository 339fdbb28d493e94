// Kinds 1 and 5: the lightest row. Kind 6: the best row of a walk.
#![tactic(auto)]

ghost use Rattle.std.specs.Prelude.{◌≡◌, ◌⊎◌, [], ◌∷◌, ◌≤◌, min, take};
ghost use Rattle.refusal.specs.Refusals.{answer};
ghost use Rattle.rows.specs.Keys.{sum_of};
ghost use Rattle.walk.specs.Answer.{walk_told};
ghost use Rattle.text.specs.Text.{SixDigits};
ghost use Rattle.text.specs.Reading.{values_from};
ghost use Rattle.reply.specs.Due.{request, request_with, search_number, row_lines, search, walk, due_to};
ghost use Rattle.reply.specs.Answered.{RepliedBy};

use arrayvec::ArrayVec;
use field::table::Field;
use refusal::Refusal;
use reply::{put_answer, refuse};
use rows::Family;
use search::LightestRow;
use text::Header;
use walk::{CountedRow, Told};

// The values, read from the part of a request text that follows line one: at most 256, one more than a search takes.
fn read_values(part: &[u8], count: u32) -> ArrayVec<u32, 256>
    ensures { result.items ≡ values_from part.now 0 (min count 256) }
{
    let mut values = ArrayVec::new();
    for i in 0..count.min(256) as usize {
        values.push(text::value_at(part, i));
    }
    values
}

// The entries of a row as numbers of a line.
fn widened(row: [u8; 8]) -> [u32; 8]
    ensures { (result ≡ row) × SixDigits result }
{
    let mut entries = [0; 8];
    for i in 0..8 {
        entries[i] = u32::from(row[i]);
    }
    entries
}

// Writes a row that is found, if it fits: its counts, and its entries.
fn put_row(space: &mut [u8], field: Field, n: usize, found: LightestRow) -> Result<usize, Refusal>
    requires { (1 ≤ n) × (n ≤ 8) × (found.sum ≡ sum_of field.polynomial n (take n found.row)) }
    ensures { RepliedBy (answer 0 (row_lines field.polynomial n (take n found.row))) space.old space.new result }
{
    let order = n as u32;
    let count = found.sum + lines::count::addition_count(field, found.row, n);
    let entries = widened(found.row);
    put_answer(
        space,
        &[&[0, found.sum, count, order * count], &entries[..n]],
    )
}

// The family of matrices that a kind searches for.
pub fn family(kind: u32) -> Family
    requires { (kind ≡ 1) ⊎ (kind ≡ 5) }
    ensures { kind ≡ search_number result }
{
    if kind == 5 {
        Family::Circulant
    } else {
        Family::Hadamard
    }
}

// The search for matrices of a family over the candidates, which stand in the part of a request text that follows line one.
pub fn search_row(
    part: &[u8],
    space: &mut [u8],
    header: Header,
    family: Family,
) -> Result<usize, Refusal>
    ensures { RepliedBy (due_to (search family) (request header.polynomial header.order (values_from part.now 0 header.count))) space.old space.new result }
{
    let candidates = read_values(part, header.count);
    match search::search_for(family, header.polynomial, header.order, &candidates) {
        Err(reason) => refuse(space, reason),
        Ok(found) => {
            let field = Field {
                polynomial: header.polynomial as u16,
            };
            put_row(space, field, header.order as usize, found)
        }
    }
}

// Writes what a walk tells, if it fits: its numbers, and the best row, or 999999 and zeros where there is none yet.
fn put_walk(space: &mut [u8], n: usize, told: Told) -> Result<usize, Refusal>
    requires { let w = walk_told told in (n ≤ 8) × SixDigits (0 ∷ w.finished ∷ w.tried ∷ w.count ∷ w.bound ∷ []) }
    ensures { let w = walk_told told in
        RepliedBy (answer 0 ((0 ∷ w.finished ∷ w.tried ∷ w.count ∷ w.bound ∷ []) ∷ take n w.row ∷ [])) space.old space.new result }
{
    let best = told.best.unwrap_or(CountedRow {
        count: 999999,
        row: [0; 8],
    });
    let finished = u32::from(told.finished);
    let tried = told.tried as u32;
    let entries = widened(best.row);
    put_answer(
        space,
        &[&[0, finished, tried, best.count, told.bound], &entries[..n]],
    )
}

// The walk of a budget over the candidates, which stand in the part of a request text that follows line one.
pub fn walk_row(part: &[u8], space: &mut [u8], header: Header) -> Result<usize, Refusal>
    requires { header.budget ≤ 999999 }
    ensures { RepliedBy (due_to walk (request_with header.polynomial header.order header.budget (values_from part.now 0 header.count))) space.old space.new result }
{
    let candidates = read_values(part, header.count);
    match walk::best_yet(
        header.polynomial,
        header.order,
        &candidates,
        u64::from(header.budget),
    ) {
        Err(reason) => refuse(space, reason),
        Ok(told) => put_walk(space, header.order as usize, told),
    }
}
