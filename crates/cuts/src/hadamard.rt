// What only the walk over Hadamard rows has: which letter may stand at a place, the last letter, and when a whole row is good.
// Four indices whose exclusive or is 0 are a plane of the index space.

ghost use Rattle.std.specs.Prelude.{◌≡◌, suc, ◌<◌, ◌≤◌, take};
ghost use mathlib.Core.List.{foldl};
ghost use Rattle.field.specs.Polynomial.{◌⊕◌};
ghost use Rattle.field.specs.Steps.{every_below};
ghost use Rattle.lines.specs.Numbers.{WordsInField};
ghost use Rattle.rows.specs.Shape.{hadamard_shape, is_good};
ghost use Rattle.rows.specs.Steps.Orders.{SearchOrder};
ghost use Rattle.cuts.specs.Steps.Hadamard.{is_next, plane_passes, planes_pass, last_letter};
ghost use Rattle.cuts.specs.Steps.Families.{hadamard_cuts};
ghost use Rattle.cuts.specs.Steps.Cuts.{AllStand};

use field::table::Table;
use matrix::block::{Look, regular_between};

// At order 4 and 8 the entry at place d is larger than that at place BEFORE[d], from d = 1 on.
const BEFORE: [u8; 8] = [0, 0, 1, 2, 2, 4, 4, 4];

// Whether a comes next by the order: it is larger than the entry that is to be smaller, 0 at the first place, and none of the entries.
pub fn is_next(row: [u8; 8], level: usize, a: u8) -> bool
    requires { level < 8 }
    ensures { result ≡ is_next (take level row) a }
{
    if level == 0 {
        return 0 < a;
    }
    let low = usize::from(BEFORE[level]);
    if a <= row[low] {
        return false;
    }
    !row[..level].contains(&a)
}

// Whether the plane of the indices a, b and d passes, where its fourth index c is below d: a and b do not have the product of c and
// d, and at order 8 the four entries add up to 2 or more.
fn plane_passes(table: &Table, n: usize, row: [u8; 8], d: usize, b: usize, a: usize) -> bool
    requires { (a < b) × (b < d) × (d < 8) × WordsInField table.now.polynomial (suc d) row }
    ensures { result ≡ plane_passes table.now.polynomial n row d b a }
{
    let c = a ^ b ^ d;
    if d <= c {
        return true;
    }
    if table.times(row[a], row[b]) == table.times(row[c], row[d]) {
        return false;
    }
    if n != 8 {
        return true;
    }
    2 <= row[a] ^ row[b] ^ row[c] ^ row[d]
}

// Whether all planes of b, d and an index below b pass.
fn planes_through(table: &Table, n: usize, row: [u8; 8], d: usize, b: usize) -> bool
    requires { (b < d) × (d < 8) × WordsInField table.now.polynomial (suc d) row }
    ensures { result ≡ every_below b (plane_passes table.now.polynomial n row d b) }
{
    (0..b).all(|a| plane_passes(table, n, row, d, b, a))
}

// Whether all planes pass that the entry at place d completes.
pub fn planes_pass(table: &Table, n: usize, row: [u8; 8], d: usize) -> bool
    requires { (d < 8) × WordsInField table.now.polynomial (suc d) row }
    ensures { result ≡ planes_pass table.now.polynomial n row d }
{
    (0..d).all(|b| planes_through(table, n, row, d, b))
}

// The letter that makes the exclusive or 1 behind the first entries.
pub fn last_letter(row: [u8; 8], level: usize) -> u8
    requires { level ≤ 8 }
    ensures { result ≡ last_letter (take level row) }
{
    multiply::xor_of(row, level) ^ 1
}

// Whether a row whose exclusive or is 1 is good, where each entry may stand: blocks of up to half the order decide, of these the ones
// whose columns no translation makes smaller; and those of sizes 1 and 2 are known to be regular.
pub fn is_good(table: &Table, n: usize, row: [u8; 8]) -> bool
    requires { SearchOrder n × WordsInField table.now.polynomial n row × (foldl ◌⊕◌ 0 (take n row) ≡ 1)
        × AllStand (hadamard_cuts table.now.polynomial n) n row }
    ensures { result ≡ is_good hadamard_shape table.now.polynomial n (take n row) }
{
    let m = multiply::hadamard_matrix(row, n);
    regular_between(table, m, n, Look::Translations, 2, n / 2)
}
