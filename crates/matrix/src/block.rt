// Square blocks of a matrix: the determinant, and the tests that no square block is singular.

ghost use Rattle.std.specs.Prelude.{◌≡◌, [], ◌-◌, ◌^◌, ◌≤◌, ◌<◌, length, get_or, replicate};
ghost use Rattle.algebra.specs.Matrix.{skip, without, det, chosen, block};
ghost use Rattle.field.specs.Polynomial.{◌⊕◌, degree, product};
ghost use Rattle.lines.specs.Numbers.{numbers, entry, InField};
ghost use Rattle.lines.specs.Steps.Blocks.{filled, framed};
ghost use Rattle.matrix.specs.Steps.Choice.{line_of, is_looked_at, next_choice};
ghost use Rattle.matrix.specs.Steps.Regular.{regular_of_size, regular_between};

use field::table::Table;
use lines::array::filled;

// The line without column j: what stands behind column j moves up, and 0 behind it.
fn without_column(line: [u8; 8], j: usize) -> [u8; 8]
    ensures { result ≡ filled 0 (λ k. get_or line (skip j k) 0) 7 }
{
    filled(0, 7, |k| if k < j { line[k] } else { line[k + 1] })
}

// The block that is left without line 0 and column j, and zeros elsewhere.
pub fn without(block: [[u8; 8]; 8], n: usize, j: usize) -> [[u8; 8]; 8]
    requires { (n ≤ 8) × (j < n) }
    ensures { result ≡ framed (n - 1) 7 (without (entry block) j) }
{
    filled(
        [0; 8],
        n - 1,
        |i|
            requires { i < 7 }
            ensures { result ≡ filled 0 (without (entry block) j i) 7 }
        { without_column(block[i + 1], j) },
    )
}

// The determinant of two lines in columns i and j.
fn two_by_two(table: &Table, upper: [u8; 8], lower: [u8; 8], i: usize, j: usize) -> u8
    requires { let p = table.now.polynomial in (i < 8) × (j < 8) × (get_or upper i 0 < 2 ^ degree p) × (get_or upper j 0 < 2 ^ degree p) }
    ensures { let p = table.now.polynomial in
        result ≡ product p (get_or upper i 0) (get_or lower j 0) ⊕ product p (get_or upper j 0) (get_or lower i 0) }
{
    table.times(upper[i], lower[j]) ^ table.times(upper[j], lower[i])
}

// The determinant of a block of size 3, along the first line.
#[tactic(auto, unfolding(lines::specs::Numbers::InField))]
fn three_by_three(table: &Table, block: [[u8; 8]; 8]) -> u8
    requires { InField table.now.polynomial 3 3 block }
    ensures { result ≡ det (numbers table.now.polynomial) 3 (entry block) }
{
    let first = two_by_two(table, block[1], block[2], 1, 2);
    let second = two_by_two(table, block[1], block[2], 0, 2);
    let third = two_by_two(table, block[1], block[2], 0, 1);
    let r = table.times(block[0][0], first);
    let s = table.times(block[0][1], second);
    r ^ s ^ table.times(block[0][2], third)
}

// The determinant, expanded along the first line; that of the empty block is 1. Sizes up to 3 are done directly.
#[cycle(determinant_first_line_sum)]
#[tactic(auto, unfolding(lines::specs::Numbers::InField))]
pub fn determinant(table: &Table, block: [[u8; 8]; 8], n: usize) -> u8
    requires { (n ≤ 8) × InField table.now.polynomial n n block }
    ensures { result ≡ det (numbers table.now.polynomial) n (entry block) }
{
    match n {
        0 => 1,
        1 => block[0][0],
        2 => two_by_two(table, block[0], block[1], 0, 1),
        3 => three_by_three(table, block),
        _ => first_line_sum(table, block, n),
    }
}

// The sum over the first line: each entry times the determinant of the block left without that line and column.
#[cycle(determinant_first_line_sum)]
#[tactic(auto, unfolding(lines::specs::Numbers::InField))]
fn first_line_sum(table: &Table, block: [[u8; 8]; 8], n: usize) -> u8
    requires { (1 ≤ n) × (n ≤ 8) × InField table.now.polynomial n n block }
    ensures { result ≡ det (numbers table.now.polynomial) n (entry block) }
{
    let mut r: u8 = 0;
    for j in 0..n {
        let minor = determinant(table, without(block, n, j), n - 1);
        r ^= table.times(block[0][j], minor);
    }
    r
}

// The chosen elements of an array, and `empty` behind them: each is stored, and the next overwrites one that is not chosen.
fn chosen<T: Copy>(empty: T, from: [T; 8], choice: u16) -> [T; 8]
    ensures { (d : T) → result ≡ filled empty (λ j. get_or from (get_or (chosen 8 choice) j 0) d) (length (chosen 8 choice)) }
{
    let mut r = [empty; 8];
    let mut k = 0;
    for i in 0..8 {
        r[k] = from[i];
        k += usize::from(choice >> i & 1);
    }
    if k < 8 {
        r[k] = empty;
    }
    r
}

// The chosen lines of a matrix, and zeros behind them.
pub fn chosen_lines(m: [[u8; 8]; 8], lines: u16) -> [[u8; 8]; 8]
    requires { lines < 256 }
    ensures { result ≡ filled (replicate 8 0) (λ i. get_or m (get_or (chosen 8 lines) i 0) []) (length (chosen 8 lines)) }
{
    chosen([0; 8], m, lines)
}

// The chosen columns of the first n lines, and zeros elsewhere.
pub fn chosen_columns(m: [[u8; 8]; 8], n: usize, columns: u16) -> [[u8; 8]; 8]
    requires { (n ≤ 8) × (columns < 256) }
    ensures { result ≡ framed n (length (chosen 8 columns)) (λ i j. entry m i (get_or (chosen 8 columns) j 0)) }
{
    filled(
        [0; 8],
        n,
        |i|
            requires { i < 8 }
            ensures { result ≡ filled 0 (λ j. entry m i (get_or (chosen 8 columns) j 0)) (length (chosen 8 columns)) }
        { chosen(0, m[i], columns) },
    )
}

// The next choice of as many lines or columns, in ascending order of the masks: the lowest group of ones is moved up by its highest
// one, and the others of it go to the lowest places.
fn next_choice(mask: u16) -> u16
    requires { (1 ≤ mask) × (mask < 256) }
    ensures { result ≡ next_choice 0 mask }
{
    let low = mask & (!mask + 1);
    let next = mask + low;
    next | ((mask ^ next) / low / 4)
}

// Which choices of columns are looked at: all of them; those that no translation of the places makes smaller; those that no rotation of the
// places below n, modulo n, makes smaller, n from 2 to 8.
#[derive(Clone, Copy)]
pub enum Look {
    All,
    Translations,
    Rotations(usize),
}

impl Look {
    // The line of the table below.
    fn line(self) -> usize
        ensures { result ≡ line_of self }
    {
        match self {
            Look::All => 0,
            Look::Translations => 1,
            Look::Rotations(n) => n,
        }
    }
}

// The choices below 256 that are looked at, a line for each way to look: choice s is digit s % 32 of number s / 32.
const LEAST: [[u32; 8]; 9] = [
    [
        4294967295, 4294967295, 4294967295, 4294967295, 4294967295, 4294967295, 4294967295,
        4294967295,
    ],
    [
        4294869227, 2967994368, 2363490304, 3900738240, 0, 0, 0, 2147483648,
    ],
    [
        3149642683, 3149642683, 3149642683, 3149642683, 3149642683, 3149642683, 3149642683,
        3149642683,
    ],
    [
        2341178251, 2341178251, 2341178251, 2341178251, 2341178251, 2341178251, 2341178251,
        2341178251,
    ],
    [
        2158723243, 2158723243, 2158723243, 2158723243, 2158723243, 2158723243, 2158723243,
        2158723243,
    ],
    [
        2147518635, 2147518635, 2147518635, 2147518635, 2147518635, 2147518635, 2147518635,
        2147518635,
    ],
    [
        2292230827, 2147483648, 2292230827, 2147483648, 2292230827, 2147483648, 2292230827,
        2147483648,
    ],
    [
        2829626027, 2155907072, 0, 2147483648, 2829626027, 2155907072, 0, 2147483648,
    ],
    [
        2863311531, 2829625504, 2292187136, 2155905024, 0, 0, 0, 2147483648,
    ],
];

// Whether a choice of columns is looked at.
fn is_looked_at(look: Look, mask: u16) -> bool
    requires { (mask < 256) × (line_of look ≤ 8) }
    ensures { result ≡ is_looked_at (line_of look) mask }
{
    LEAST[look.line()][usize::from(mask) / 32] >> (mask % 32) & 1 == 1
}

// The next choice of as many columns that is looked at, or one of 256 or more.
fn next_columns(look: Look, mask: u16) -> u16
    requires { (1 ≤ mask) × (mask < 256) × (line_of look ≤ 8) }
    ensures { result ≡ next_choice (line_of look) mask }
{
    let mut r = next_choice(mask);
    while r < 256 && !is_looked_at(look, r) {
        r = next_choice(r);
    }
    r
}

// Whether every square block of size k is regular, of those whose columns are looked at. The first choice is one of them.
pub fn regular_of_size(table: &Table, m: [[u8; 8]; 8], n: usize, look: Look, k: usize) -> bool
    requires { (n ≤ 8) × (1 ≤ k) × (k ≤ n) × InField table.now.polynomial n n m × (line_of look ≤ 8) }
    ensures { result ≡ regular_of_size (numbers table.now.polynomial) n (entry m) (line_of look) k }
{
    let end: u16 = 1 << n;
    let first: u16 = (1 << k) - 1;
    let mut columns = first;
    'choices: while columns < end {
        let narrow = chosen_columns(m, n, columns);
        let mut lines = first;
        while lines < end {
            if determinant(table, chosen_lines(narrow, lines), k) == 0 {
                break 'choices;
            }
            lines = next_choice(lines);
        }
        columns = next_columns(look, columns);
    }
    end <= columns
}

// The same for the sizes above `above` up to `most`, the small ones first.
pub fn regular_between(
    table: &Table,
    m: [[u8; 8]; 8],
    n: usize,
    look: Look,
    above: usize,
    most: usize,
) -> bool
    requires { (n ≤ 8) × (most ≤ n) × InField table.now.polynomial n n m × (line_of look ≤ 8) }
    ensures { result ≡ regular_between (numbers table.now.polynomial) n (entry m) (line_of look) above most }
{
    (above..most).all(|k| regular_of_size(table, m, n, look, k + 1))
}
