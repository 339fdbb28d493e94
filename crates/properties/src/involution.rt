// Whether a matrix is an involution.

ghost use Rattle.std.specs.Prelude.{◌≡◌, ◌≤◌, ◌<◌};
ghost use Rattle.algebra.specs.Matrix.{is_involution};
ghost use Rattle.lines.specs.Numbers.{numbers, elements, entry, InField};
ghost use Rattle.properties.specs.Steps.Identity.{unit, square_entry, is_unit_line};

use field::table::Field;

// Entry (i, j) of the identity.
fn unit(i: usize, j: usize) -> u8
    ensures { result ≡ unit i j }
{
    u8::from(i == j)
}

// Entry (i, j) of the matrix times itself.
fn square_entry(field: Field, m: [[u8; 8]; 8], n: usize, i: usize, j: usize) -> u8
    requires { (n ≤ 8) × (i < n) × (j < n) × InField field.polynomial n n m }
    ensures { result ≡ square_entry field.polynomial n (entry m) i j }
{
    let mut sum = 0;
    for k in 0..n {
        sum ^= field.product(m[i][k], m[k][j]);
    }
    sum
}

// Whether line i of the matrix times itself is that of the identity.
fn is_unit_line(field: Field, m: [[u8; 8]; 8], n: usize, i: usize) -> bool
    requires { (n ≤ 8) × (i < n) × InField field.polynomial n n m }
    ensures { result ≡ is_unit_line field.polynomial n (entry m) i }
{
    (0..n).all(|j| square_entry(field, m, n, i, j) == unit(i, j))
}

// Whether the matrix, used twice, gives every input back: whether it times itself is the identity.
pub fn involution(field: Field, m: [[u8; 8]; 8], n: usize) -> bool
    requires { (n ≤ 8) × InField field.polynomial n n m }
    ensures { result ≡ is_involution (numbers field.polynomial) (elements field.polynomial) n (entry m) }
{
    (0..n).all(|i| is_unit_line(field, m, n, i))
}
