// Kinds 2 and 4: what is found of a matrix, or its gates.
#![tactic(auto)]

ghost use Rattle.std.specs.Prelude.{◌≡◌, ℕ, ◌+◌, ◌*◌, ◌≤◌, ◌<◌, MatchResult};
ghost use Rattle.refusal.specs.Refusals.{number_of, first_number, answer};
ghost use Rattle.lines.specs.Numbers.{entry};
ghost use Rattle.lines.specs.Steps.Blocks.{framed, filled};
ghost use Rattle.rows.specs.Candidates.{some_too_large};
ghost use Rattle.text.specs.Reading.{value_at, values_from};
ghost use Rattle.reply.specs.Due.{request, check_faults, check_lines, due_to};
ghost use Rattle.reply.specs.Answered.{RepliedBy};
ghost use Rattle.answer_matrix.specs.Steps.Asked.{GivesMatrix, matrix_kind};

use crate::gate_list::put_gate_list;
use crate::square::Matrix;
use field::table::Field;
use lines::array::filled;
use refusal::Refusal;
use reply::{put_answer, refuse};
use text::Header;

mod gate_list;
mod square;

// What is asked of a matrix: what is found of it, or its gates.
#[derive(Clone, Copy, Debug, PartialEq, Eq)]
pub enum Asked {
    Check,
    Gates,
}

// Whether one of the values is 2^m or more, m the degree. The values stand in the part of a request text that follows line one.
fn some_too_large(field: Field, part: &[u8], count: usize) -> bool
    ensures { result ≡ some_too_large field.polynomial (values_from part.now 0 count) }
{
    for i in 0..count {
        if field.too_large(text::value_at(part, i)) {
            return true;
        }
    }
    false
}

// The n values from number `first` on, as a line of a matrix, and zeros behind them.
fn line_of(part: &[u8], first: usize, n: usize) -> [u8; 8]
    requires { (n ≤ 8) × (first ≤ 64) × ((j : ℕ) → j < n → value_at part.now (first + j) < 256) }
    ensures { result ≡ filled 0 (λ j. value_at part.now (first + j)) n }
{
    filled(0, n, |j| text::value_at(part, first + j) as u8)
}

// The matrix of order n, its entries line by line, and zeros elsewhere.
pub fn matrix_of(part: &[u8], n: usize) -> [[u8; 8]; 8]
    requires { (n ≤ 8) × ((i j : ℕ) → i < n → j < n → value_at part.now (i * n + j) < 256) }
    ensures { result ≡ framed n n (λ i j. value_at part.now (i * n + j)) }
{
    let mut m = [[0; 8]; 8];
    for i in 0..n {
        m[i] = line_of(part, i * n, n);
    }
    m
}

// The matrix of a request, or what the request is refused for.
fn matrix_asked(part: &[u8], header: Header) -> Result<Matrix, Refusal>
    ensures { GivesMatrix header.polynomial header.order (values_from part.now 0 header.count) result }
{
    let field = Field::try_from(header.polynomial)?;
    let n = header.order;
    if checks::is_wrong_order(n) {
        return Err(Refusal::OrderRange);
    }
    if header.count != n * n {
        return Err(Refusal::CountRange);
    }
    if some_too_large(field, part, header.count as usize) {
        return Err(Refusal::ValueRange);
    }
    let order = n as usize;
    Ok(Matrix {
        field,
        order,
        entries: matrix_of(part, order),
    })
}

// Writes what is found of a matrix, if it fits.
fn put_check(space: &mut [u8], matrix: Matrix) -> Result<usize, Refusal>
    ensures { RepliedBy (answer 0 (check_lines matrix.field.polynomial matrix.order (entry matrix.entries))) space.old space.new result }
{
    let found = checks::check(matrix.field, matrix.entries, matrix.order);
    let mds = u32::from(found.mds);
    let involution = u32::from(found.involution);
    put_answer(space, &[&[0, found.branch, mds, involution, found.count]])
}

// The gates, or the check, of a matrix, whose entries stand in the part of a request text that follows line one.
pub fn of_matrix(
    part: &[u8],
    space: &mut [u8],
    header: Header,
    asked: Asked,
) -> Result<usize, Refusal>
    ensures { RepliedBy (due_to (matrix_kind asked) (request header.polynomial header.order (values_from part.now 0 header.count))) space.old space.new result }
{
    match matrix_asked(part, header) {
        Err(reason) => refuse(space, reason),
        Ok(matrix) => match asked {
            Asked::Check => put_check(space, matrix),
            Asked::Gates => put_gate_list(space, matrix),
        },
    }
}
