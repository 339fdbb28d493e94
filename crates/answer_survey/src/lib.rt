// Kind 3: the polynomials of a degree.
#![tactic(auto)]

ghost use Rattle.std.specs.Prelude.{◌≡◌, ◌||◌, [], ◌∷◌, ◌+◌, ◌-◌, ◌*◌, ◌≤◌, ltb, length};
ghost use Rattle.refusal.specs.Refusals.{answer};
ghost use Rattle.field.specs.Steps.{start_of};
ghost use Rattle.text.specs.Text.{line_text};
ghost use Rattle.text.specs.Writing.{Wrote};
ghost use Rattle.text.specs.Reading.{values_from};
ghost use Rattle.reply.specs.Due.{request, survey_line, survey_lines, survey, due_to};
ghost use Rattle.reply.specs.Answered.{RepliedBy};
ghost use Rattle.answer_survey.specs.Steps.TableLines.{lines_from};

use field::table::Field;
use refusal::Refusal;
use reply::refuse;
use text::Writer;

// Where the polynomials of each degree begin in the table, and where the last ones end.
const STARTS: [usize; 10] = [0, 0, 0, 1, 3, 6, 12, 21, 39, 69];

// The sum of the XOR counts of the nonzero elements, and the sum of their squares.
#[derive(Clone, Copy)]
struct Sums {
    counts: u32,
    squares: u32,
}

fn sums_of(field: Field) -> Sums
    ensures { field.polynomial ∷ result.counts ∷ result.squares ∷ [] ≡ survey_line field.polynomial }
{
    let mut counts = 0;
    let mut squares = 0;
    for a in 1..field.size() {
        let count = u32::from(field.xor_count(a as u8));
        counts += count;
        squares += count * count;
    }
    Sums { counts, squares }
}

// Writes the line of a polynomial.
fn put_polynomial(writer: &mut Writer, field: Field)
    requires { writer.old.at + 19 ≤ length writer.old.space.now }
    ensures { Wrote writer.old writer.new (line_text (survey_line field.polynomial)) }
{
    let sums = sums_of(field);
    writer.put_line(&[u32::from(field.polynomial), sums.counts, sums.squares]);
}

// Where the polynomials of degree m begin in the table.
fn start_of(m: usize) -> usize
    requires { m ≤ 9 }
    ensures { result ≡ start_of m }
{
    STARTS[m]
}

// Writes the lines of the polynomials at the places from `first` to `last` of the table, the last one not among them.
fn put_polynomials(writer: &mut Writer, first: usize, last: usize)
    requires { (first ≤ last) × (last ≤ 69) × (writer.old.at + 19 * (last - first) ≤ length writer.old.space.now) }
    ensures { Wrote writer.old writer.new (lines_from first last) }
{
    for polynomial in &field::TABLE[first..last] {
        let field = Field {
            polynomial: *polynomial,
        };
        put_polynomial(writer, field);
    }
}

// Writes the survey of degree m, if it fits.
fn put_survey(space: &mut [u8], m: usize) -> Result<usize, Refusal>
    requires { (2 ≤ m) × (m ≤ 8) }
    ensures { RepliedBy (answer 0 (survey_lines m)) space.old space.new result }
{
    let first = start_of(m);
    let last = start_of(m + 1);
    let count = last - first;
    if space.len() < 13 + 19 * count {
        return Err(Refusal::ShortSpace);
    }
    let mut writer = Writer { space, at: 0 };
    writer.put_line(&[0, count as u32]);
    put_polynomials(&mut writer, first, last);
    Ok(writer.at)
}

// Whether the degree is not from 2 to 8.
fn wrong_degree(m: u32) -> bool
    ensures { result ≡ (ltb m 2 || ltb 8 m) }
{
    m < 2 || 8 < m
}

// The survey of degree m: order and count are to be 0.
pub fn survey(
    part: &[u8],
    space: &mut [u8],
    m: u32,
    order: u32,
    count: u32,
) -> Result<usize, Refusal>
    ensures { RepliedBy (due_to survey (request m order (values_from part.now 0 count))) space.old space.new result }
{
    if wrong_degree(m) {
        return refuse(space, Refusal::PolynomialRange);
    }
    if order != 0 {
        return refuse(space, Refusal::OrderRange);
    }
    if count != 0 {
        return refuse(space, Refusal::CountRange);
    }
    put_survey(space, m as usize)
}
