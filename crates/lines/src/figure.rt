// The figure kept for an element: its XOR count, and its number of ones for each output bit. Figures are added up along a row, and
// the ones of a row tell its depth.

ghost use Rattle.std.specs.Prelude.{◌≡◌, ◌^◌, ◌≤◌, ◌<◌, get_or};
ghost use Rattle.field.specs.Polynomial.{Modulus, degree, xor_count};
ghost use Rattle.lines.specs.Numbers.{WordsInField};
ghost use Rattle.lines.specs.Depths.{ones_in_line, depth_of, greatest};
ghost use Rattle.lines.specs.Steps.Figures.{ones_table, CountsOf, figure_of, line_figure, figure_sum, Addable, depth_of_ones, average_ones, least_depth};

use crate::array::filled;
use field::table::Field;

// Of an element, or the sum over a row: the count, and the ones for each output bit, 0 behind the degree.
#[derive(Clone, Copy)]
pub struct Figure {
    pub count: u32,
    pub ones: [u8; 8],
}

impl Figure {
    // The sum of two figures.
    fn plus(self, other: Figure) -> Figure
        requires { Addable self other }
        ensures { result ≡ figure_sum self other }
    {
        Figure {
            count: self.count + other.count,
            ones: filled(0, 8, |b| self.ones[b] + other.ones[b]),
        }
    }

    // The depth of a row with this figure: the greatest over the output bits, which the greatest number of ones makes.
    pub fn depth(self) -> u8
        ensures { result ≡ depth_of_ones self.ones }
    {
        depth_of(u16::from(greatest(self.ones)))
    }
}

// The ones of an element for output bit b: those in line b of its bit matrix, whose column k is a times 2^k.
fn ones_in_line(field: Field, a: u8, b: usize) -> u8
    requires { (a < 2 ^ degree field.polynomial) × (b < 8) }
    ensures { result ≡ ones_in_line field.polynomial a b }
{
    let mut column = a;
    let mut ones: u8 = 0;
    for _ in 0..field.degree() {
        ones += column >> b & 1;
        column = field.product(column, 2);
    }
    ones
}

// The ones of every element for each output bit: those of a for bit b at place a·8 + b; 0 behind them.
pub fn ones_table(field: Field) -> [u8; 2048]
    ensures { result ≡ ones_table field.polynomial }
{
    let mut r = [0u8; 2048];
    for i in 0..8 * field.size() {
        r[i] = ones_in_line(field, (i / 8) as u8, i % 8);
    }
    r
}

// The table of the ones of every element over a polynomial, to look them up.
#[derive(Clone, Copy)]
pub struct Ones<'a> {
    pub polynomial: u16,
    pub ones: &'a [u8; 2048],
    ghost modulus: { Modulus polynomial },
    ghost holds: { ones.now ≡ ones_table polynomial },
}

impl<'a> Ones<'a> {
    // The figure of an element with this count.
    fn figure(&self, count: u32, a: u8) -> Figure
        requires { (a < 2 ^ degree self.now.polynomial) × (count ≡ xor_count self.now.polynomial a) }
        ensures { result ≡ figure_of self.now.polynomial a }
    {
        let first = usize::from(a) * 8;
        Figure {
            count,
            ones: filled(0, 8, |b| self.ones[first + b]),
        }
    }

    // The figure of a line of n entries whose counts are known: the sum of their figures.
    pub fn line_figure(&self, counts: &[u8; 256], line: [u8; 8], n: usize) -> Figure
        requires { (n ≤ 8) × WordsInField self.now.polynomial n line × CountsOf self.now.polynomial n counts.now line }
        ensures { result ≡ line_figure self.now.polynomial n (λ j. get_or line j 0) }
    {
        let mut figure = Figure {
            count: 0,
            ones: [0; 8],
        };
        for a in &line[..n] {
            let count = u32::from(counts[usize::from(*a)]);
            figure = figure.plus(self.figure(count, *a));
        }
        figure
    }

    // The depth that n nonzero entries with this count have at least, of which the first k are known: each of the others adds a one to
    // every output bit.
    pub fn least_depth(
        &self,
        counts: &[u8; 256],
        line: [u8; 8],
        k: usize,
        n: usize,
        count: u32,
    ) -> u8
        requires { (k ≤ n) × (n ≤ 8) × (count ≤ 4095) × WordsInField self.now.polynomial k line × CountsOf self.now.polynomial k counts.now line }
        ensures { result ≡ least_depth self.now.polynomial n (λ j. get_or line j 0) k count }
    {
        let field = Field {
            polynomial: self.polynomial,
        };
        let ones = self.line_figure(counts, line, k).ones;
        let first = u16::from(greatest(ones)) + (n - k) as u16;
        depth_of(first).max(depth_of(average_ones(field, n, count)))
    }
}

// The greatest of eight numbers of ones.
fn greatest(ones: [u8; 8]) -> u8
    ensures { result ≡ greatest 8 (λ b. get_or ones b 0) }
{
    let mut r: u8 = 0;
    for t in ones {
        r = r.max(t);
    }
    r
}

// The depth of an output bit with t ones in its line of bits: the least d with 2^d at least t.
fn depth_of(t: u16) -> u8
    ensures { result ≡ depth_of t }
{
    let mut d: u8 = 0;
    while 1u32 << d < u32::from(t) {
        d += 1;
    }
    d
}

// The ones that some output bit of n nonzero entries with this count has at least: no fewer than the average.
fn average_ones(field: Field, n: usize, count: u32) -> u16
    requires { (n ≤ 8) × (count ≤ 4095) }
    ensures { result ≡ average_ones field.polynomial n count }
{
    let m = u32::from(field.degree());
    (n as u32 + count.div_ceil(m)) as u16
}
