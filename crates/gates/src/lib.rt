// The gates of a matrix product: which input bits an output bit joins, how many gates join them, and which number carries it.
#![tactic(auto)]

ghost use Rattle.std.specs.Prelude.{◌≡◌, ◌+◌, ◌-◌, ◌*◌, ◌/◌, ◌%◌, ◌^◌, ◌≤◌, ◌<◌, eqb, length, get_or};
ghost use Rattle.field.specs.Polynomial.{degree, product};
ghost use Rattle.lines.specs.Numbers.{entry, InField, WordsInField};
ghost use Rattle.lines.specs.Depths.{bit};
ghost use Rattle.gates.specs.Gates.{inputs_of, carrier_of};
ghost use Rattle.gates.specs.Steps.{as_inputs};

use field::table::Field;

// What carries an output bit that is always 0.
pub const ALWAYS_ZERO: u32 = 999999;

// The inputs of an output bit, ascending: the first `count` of the array, with zeros behind them.
#[derive(Clone, Copy)]
pub struct Inputs {
    pub list: [u8; 64],
    pub count: usize,
}

// Whether bit b of a times 2^j is 1.
fn has_bit(field: Field, a: u8, j: usize, b: usize) -> bool
    requires { (a < 2 ^ degree field.polynomial) × (j < 8) × (b < 8) }
    ensures { result ≡ eqb (bit b (product field.polynomial a (2 ^ j))) 1 }
{
    field.product(a, 1 << j) >> b & 1 == 1
}

// The inputs of bit b of the output of a line of n entries.
fn inputs_of(field: Field, line: [u8; 8], n: usize, b: usize) -> Inputs
    requires { (n ≤ 8) × WordsInField field.polynomial n line × (b < 8) }
    ensures { result ≡ as_inputs (inputs_of field.polynomial n (λ j. get_or line j 0) b) }
{
    let m = usize::from(field.degree());
    let mut list = [0u8; 64];
    let mut count = 0;
    for v in 0..n * m {
        if has_bit(field, line[v / m], v % m, b) {
            list[count] = v as u8;
            count += 1;
        }
    }
    Inputs { list, count }
}

// The inputs of output bit o of a matrix of order n: bit b of word i is number i·m + b.
pub fn inputs_at(field: Field, matrix: [[u8; 8]; 8], n: usize, o: usize) -> Inputs
    requires { (n ≤ 8) × InField field.polynomial n n matrix × (o < n * degree field.polynomial) }
    ensures { result ≡ as_inputs (inputs_of field.polynomial n (entry matrix (o / degree field.polynomial)) (o % degree field.polynomial)) }
{
    let m = usize::from(field.degree());
    inputs_of(field, matrix[o / m], n, o % m)
}

// How many gates join so many inputs: one less, none for none.
pub fn gate_count(inputs: usize) -> usize
    ensures { result ≡ inputs - 1 }
{
    inputs.saturating_sub(1)
}

// The number that carries an output bit with these inputs, whose gates are numbered from `next` on.
pub fn carrier_of(next: u32, inputs: &[u8]) -> u32
    requires { next + length inputs.now ≤ 999999 }
    ensures { (result ≡ carrier_of next inputs.now) × (result ≤ 999999) }
{
    match inputs {
        [] => ALWAYS_ZERO,
        [one] => u32::from(*one),
        [_, _, rest @ ..] => next + rest.len() as u32,
    }
}
