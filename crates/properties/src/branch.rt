// The branch number, by elimination.

ghost use Rattle.std.specs.Prelude.{◌≡◌, not, ◌+◌, ◌-◌, ◌^◌, ◌≤◌, ◌<◌, eqb, length, get_or, take, position};
ghost use Rattle.algebra.specs.Matrix.{skip, branch_number, chosen, has_kernel};
ghost use Rattle.algebra.specs.Steps.{cleared_line, cleared};
ghost use Rattle.lines.specs.Steps.Blocks.{filled, framed};
ghost use Rattle.lines.specs.Numbers.{numbers, elements, entry, InField, WordsInField};
ghost use Rattle.properties.specs.Steps.Pairs.{lowered, lines_kernel, over_lines};

use field::table::Table;
use lines::array::filled;
use matrix::block::{chosen_columns, chosen_lines};

// The first of the r lines whose entry in column 0 is not 0.
fn pivot(block: [[u8; 8]; 8], r: usize) -> Option<usize>
    requires { r ≤ 8 }
    ensures { result ≡ position (λ line. not (eqb (get_or line 0 0) 0)) (take r block) }
{
    block[..r].iter().position(|line| line[0] != 0)
}

// The i-th of the lines that are left without line k.
fn other_line(k: usize, i: usize) -> usize
    requires { i < 8 }
    ensures { result ≡ skip k i }
{
    if i < k { i } else { i + 1 }
}

// A line cleared by the pivot's, and zeros behind it: its entry in column 0 vanishes and is left out.
fn cleared_line(table: &Table, first: [u8; 8], line: [u8; 8], c: usize) -> [u8; 8]
    requires { (1 ≤ c) × (c ≤ 8) × WordsInField table.now.polynomial c first × WordsInField table.now.polynomial c line }
    ensures { result ≡ filled 0 (cleared_line (numbers table.now.polynomial) (λ j. get_or first j 0) (λ j. get_or line j 0)) (c - 1) }
{
    let a = first[0];
    let b = line[0];
    filled(
        0,
        c - 1,
        |j| table.times(a, line[j + 1]) ^ table.times(b, first[j + 1]),
    )
}

// The block that is left when column 0 is cleared by line k: without that line and that column, and zeros elsewhere.
fn cleared(table: &Table, block: [[u8; 8]; 8], r: usize, c: usize, k: usize) -> [[u8; 8]; 8]
    requires { (k < r) × (r ≤ 8) × (1 ≤ c) × (c ≤ 8) × InField table.now.polynomial r c block }
    ensures { result ≡ framed (r - 1) (c - 1) (cleared (numbers table.now.polynomial) (entry block) k) }
{
    let mut left = [[0; 8]; 8];
    for i in 0..r - 1 {
        left[i] = cleared_line(table, block[k], block[other_line(k, i)], c);
    }
    left
}

// Whether some input of c words that is not zero goes to zero in all r lines, by elimination.
pub fn has_kernel(table: &Table, block: [[u8; 8]; 8], c: usize, r: usize) -> bool
    requires { (r ≤ 8) × (c ≤ 8) × InField table.now.polynomial r c block }
    ensures { result ≡ has_kernel (numbers table.now.polynomial) (elements table.now.polynomial) c r (entry block) }
{
    if c == 0 {
        return false;
    }
    match pivot(block, r) {
        None => true,
        Some(k) => has_kernel(table, cleared(table, block, r, c, k), c - 1, r - 1),
    }
}

// The best so far, or the c columns and the lines left out, where that is less and the chosen lines send an input that is not zero to zero.
fn tried(table: &Table, narrow: [[u8; 8]; 8], n: usize, c: usize, lines: u16, best: usize) -> usize
    requires { (n ≤ 8) × (c ≤ 8) × InField table.now.polynomial n c narrow × (lines < 2 ^ n) }
    ensures { result ≡ lowered (lines_kernel (numbers table.now.polynomial) (elements table.now.polynomial) n c (entry narrow) lines) (c + (n - length (chosen n lines))) best }
{
    let r = lines.count_ones() as usize;
    let size = c + (n - r);
    if best <= size {
        return best;
    }
    let block = chosen_lines(narrow, lines);
    if has_kernel(table, block, c, r) {
        size
    } else {
        best
    }
}

// The same for all choices of lines.
fn over_lines(table: &Table, narrow: [[u8; 8]; 8], n: usize, c: usize, best: usize) -> usize
    requires { (n ≤ 8) × (c ≤ 8) × InField table.now.polynomial n c narrow }
    ensures { result ≡ over_lines (numbers table.now.polynomial) (elements table.now.polynomial) n c (entry narrow) (2 ^ n) best }
{
    let end: u16 = 1 << n;
    let mut least = best;
    for lines in 0..end {
        least = tried(table, narrow, n, c, lines, least);
    }
    least
}

// The branch number: the least, over choices of columns and lines, of the columns and the lines left out, where the chosen lines send
// an input over the chosen columns that is not zero to zero.
pub fn branch_number(table: &Table, m: [[u8; 8]; 8], n: usize) -> usize
    requires { (1 ≤ n) × (n ≤ 8) × InField table.now.polynomial n n m }
    ensures { result ≡ branch_number (numbers table.now.polynomial) (elements table.now.polynomial) n (entry m) }
{
    let end: u16 = 1 << n;
    let mut best = n + 1;
    for columns in 1..end {
        let c = columns.count_ones() as usize;
        let narrow = chosen_columns(m, n, columns);
        best = over_lines(table, narrow, n, c, best);
    }
    best
}
