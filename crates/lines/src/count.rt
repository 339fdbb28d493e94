// XOR counts of rows and matrices.

ghost use Rattle.std.specs.Prelude.{◌≡◌, ◌≤◌, get_or};
ghost use Rattle.lines.specs.Numbers.{entry, InField, WordsInField};
ghost use Rattle.lines.specs.Counts.{element_count, addition_count, row_count, matrix_count};

use field::table::Field;

// The sum of the XOR counts of the first n elements of a line.
pub fn element_count(field: Field, line: [u8; 8], n: usize) -> u32
    requires { (n ≤ 8) × WordsInField field.polynomial n line }
    ensures { result ≡ element_count field.polynomial n (λ j. get_or line j 0) }
{
    let mut sum: u32 = 0;
    for a in &line[..n] {
        sum += u32::from(field.xor_count(*a));
    }
    sum
}

// The XORs that add up the products of a line: (w - 1)·m, where w of its first n entries are not 0; none for a line of zeros.
pub fn addition_count(field: Field, line: [u8; 8], n: usize) -> u32
    requires { n ≤ 8 }
    ensures { result ≡ addition_count field.polynomial n (λ j. get_or line j 0) }
{
    let mut weight: u32 = 0;
    for a in &line[..n] {
        weight += u32::from(*a != 0);
    }
    weight.saturating_sub(1) * u32::from(field.degree())
}

// The XOR count of a line, be it a row or a line of a matrix: its elements' counts, and its additions.
pub fn row_count(field: Field, line: [u8; 8], n: usize) -> u32
    requires { (1 ≤ n) × (n ≤ 8) × WordsInField field.polynomial n line }
    ensures { result ≡ row_count field.polynomial n (λ j. get_or line j 0) }
{
    element_count(field, line, n) + addition_count(field, line, n)
}

// The XOR count of a matrix of order n: the sum of its lines' counts.
pub fn matrix_count(field: Field, m: [[u8; 8]; 8], n: usize) -> u32
    requires { (1 ≤ n) × (n ≤ 8) × InField field.polynomial n n m }
    ensures { result ≡ matrix_count field.polynomial n (entry m) }
{
    let mut sum: u32 = 0;
    for line in &m[..n] {
        sum += row_count(field, *line, n);
    }
    sum
}
