// The products of a matrix with an input: the plain one, and the one by halves for a Hadamard matrix.
#![tactic(auto)]

ghost use Rattle.std.specs.Prelude.{◌≡◌, ◌+◌, ◌-◌, ◌≤◌, ◌<◌, get_or, take, replicate};
ghost use mathlib.Core.List.{◌++◌, foldl};
ghost use Rattle.std.specs.Int.Bits.{bit_xor};
ghost use lib.Seq.{paste};
ghost use Rattle.algebra.specs.Matrix.{sum, apply, hadamard};
ghost use Rattle.field.specs.Polynomial.{◌⊕◌, product};
ghost use Rattle.lines.specs.Numbers.{HalvingOrder, InField, WordsInField, numbers, entry};
ghost use Rattle.lines.specs.Steps.Blocks.{filled, framed};

use field::table::Field;
use lines::array::filled;

// The sum of the products of the first n words of a line and an input.
fn dot(field: Field, line: [u8; 8], x: [u8; 8], n: usize) -> u8
    requires { (n ≤ 8) × WordsInField field.polynomial n line }
    ensures { result ≡ sum (numbers field.polynomial) n (λ j. product field.polynomial (get_or line j 0) (get_or x j 0)) }
{
    let mut r: u8 = 0;
    for j in 0..n {
        r ^= field.product(line[j], x[j]);
    }
    r
}

// The plain product of a matrix of order n with an input, and zeros behind it.
pub fn plain(field: Field, m: [[u8; 8]; 8], x: [u8; 8], n: usize) -> [u8; 8]
    requires { (n ≤ 8) × InField field.polynomial n n m × WordsInField field.polynomial n x }
    ensures { result ≡ apply (numbers field.polynomial) n (entry m) x ++ replicate (8 - n) 0 }
{
    filled(0, n, |i| dot(field, m[i], x, n))
}

// The exclusive or of the first n words of a row.
pub fn xor_of(row: [u8; 8], n: usize) -> u8
    requires { n ≤ 8 }
    ensures { result ≡ foldl ◌⊕◌ 0 (take n row) }
{
    row[..n].iter().fold(0, |sum, word| sum ^ *word)
}

// Line i of the Hadamard matrix of a row, of order n, and zeros behind it.
fn hadamard_line(row: [u8; 8], i: usize, n: usize) -> [u8; 8]
    requires { HalvingOrder n × (i < n) }
    ensures { result ≡ filled 0 (λ j. get_or row (bit_xor i j) 0) n }
{
    filled(0, n, |j| row[i ^ j])
}

// The Hadamard matrix of a row, of order n, and zeros elsewhere.
pub fn hadamard_matrix(row: [u8; 8], n: usize) -> [[u8; 8]; 8]
    requires { HalvingOrder n }
    ensures { result ≡ framed n n (λ i j. get_or row (bit_xor i j) 0) }
{
    filled(
        [0; 8],
        n,
        |i|
            requires { HalvingOrder n × (i < n) }
            ensures { result ≡ filled 0 (λ j. get_or row (bit_xor i j) 0) n }
        { hadamard_line(row, i, n) },
    )
}

// The n words of an array from a place on, and zeros behind them.
fn part(a: [u8; 8], from: usize, n: usize) -> [u8; 8]
    requires { from + n ≤ 8 }
    ensures { result ≡ filled 0 (λ i. get_or a (from + i) 0) n }
{
    filled(0, n, |i| a[from + i])
}

// The sum of the first n words of two arrays, word by word, and zeros behind it.
fn added(a: [u8; 8], b: [u8; 8], n: usize) -> [u8; 8]
    requires { n ≤ 8 }
    ensures { result ≡ filled 0 (λ i. get_or a i 0 ⊕ get_or b i 0) n }
{
    filled(0, n, |i| a[i] ^ b[i])
}

// The first n words of a, the first n words of b, and what a holds behind them.
fn joined(a: [u8; 8], b: [u8; 8], n: usize) -> [u8; 8]
    requires { n + n ≤ 8 }
    ensures { result ≡ paste a n b n }
{
    let mut r = a;
    r[n..n + n].copy_from_slice(&b[..n]);
    r
}

// The product of a Hadamard matrix of order n with an input, by three products of half the order, and zeros behind it.
// The row's first half gives the upper left block H1, its second half the upper right one H0; the input's halves are V0 and V1.
pub fn halved(field: Field, row: [u8; 8], x: [u8; 8], n: usize) -> [u8; 8]
    requires { HalvingOrder n × WordsInField field.polynomial n row × WordsInField field.polynomial n x }
    ensures { result ≡ apply (numbers field.polynomial) n (hadamard (numbers field.polynomial) row) x ++ replicate (8 - n) 0 }
{
    if n == 1 {
        return [field.product(row[0], x[0]), 0, 0, 0, 0, 0, 0, 0];
    }
    let h = n / 2;
    let right = part(row, h, h); // H0
    let below = part(x, h, h); // V1
    let rows = added(right, row, h); // H0 + H1
    let inputs = added(x, below, h); // V0 + V1
    let p0 = halved(field, rows, below, h);
    let p1 = halved(field, rows, x, h);
    let p2 = halved(field, row, inputs, h);
    let upper = added(p0, p2, h);
    let lower = added(p1, p2, h);
    joined(upper, lower, h)
}
