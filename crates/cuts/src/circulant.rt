// What only the walk over circulant rows has: which letter may stand at a place, and when a whole row is good.

ghost use Rattle.std.specs.Prelude.{◌≡◌, suc, ◌+◌, ◌-◌, ◌*◌, ◌%◌, ◌<◌, ◌≤◌, get_or, take};
ghost use Rattle.field.specs.Polynomial.{Products};
ghost use Rattle.field.specs.Steps.{every_below};
ghost use Rattle.lines.specs.Numbers.{WordsInField};
ghost use Rattle.lines.specs.Steps.Blocks.{filled, framed};
ghost use Rattle.rows.specs.Shape.{circulant_shape, is_good};
ghost use Rattle.rows.specs.Steps.Orders.{CirculantOrder};
ghost use Rattle.cuts.specs.Steps.Circulant.{is_next_around, pair_passes, pairs_pass};
ghost use Rattle.cuts.specs.Steps.Families.{circulant_cuts};
ghost use Rattle.cuts.specs.Steps.Cuts.{AllStand};

use field::table::Table;
use field::times;
use lines::array::filled;
use matrix::block::{Look, regular_between};

// The places from 2 on that are prime to the order n, as the ones of PRIME[n].
const PRIME: [u8; 9] = [0, 0, 0, 4, 8, 28, 32, 124, 168];

// Whether a comes next by the order: it is not 0, not smaller than the first entry, and at a place prime to the order not smaller than
// the second.
pub fn is_next(n: usize, row: [u8; 8], level: usize, a: u8) -> bool
    requires { (n ≤ 8) × (level < 8) }
    ensures { result ≡ is_next_around n (take level row) a }
{
    if a == 0 {
        return false;
    }
    if level == 0 {
        return true;
    }
    let low = usize::from(PRIME[n] >> level & 1);
    row[low] <= a
}

// A sum below 3n, modulo n.
fn around(sum: usize, n: usize) -> usize
    requires { (n ≤ 8) × (sum < 3 * n) }
    ensures { result ≡ sum % n }
{
    if sum < n {
        return sum;
    }
    if sum < 2 * n {
        return sum - n;
    }
    sum - 2 * n
}

// Whether the entries at x and d and those at y and z do not have the same product, where z = x + d - y modulo n is below d.
fn pair_passes(
    p: u16,
    products: &[u8; 65536],
    n: usize,
    row: [u8; 8],
    d: usize,
    x: usize,
    y: usize,
) -> bool
    requires { (x ≤ d) × (y < d) × (d < n) × (n ≤ 8) × WordsInField p (suc d) row × Products p products.now }
    ensures { result ≡ pair_passes p n row d x y }
{
    let z = around(x + d + (n - y), n);
    if d <= z {
        return true;
    }
    times(p, products, row[x], row[d]) != times(p, products, row[y], row[z])
}

// Whether all pairs of x and d with y below d pass.
fn pairs_through(p: u16, products: &[u8; 65536], n: usize, row: [u8; 8], d: usize, x: usize) -> bool
    requires { (x ≤ d) × (d < n) × (n ≤ 8) × WordsInField p (suc d) row × Products p products.now }
    ensures { result ≡ every_below d (pair_passes p n row d x) }
{
    (0..d).all(|y| pair_passes(p, products, n, row, d, x, y))
}

// Whether all pairs pass that the entry at place d completes. The polynomial may be any over which the products are right.
pub fn pairs_pass(p: u16, products: &[u8; 65536], n: usize, row: [u8; 8], d: usize) -> bool
    requires { (d < n) × (n ≤ 8) × WordsInField p (suc d) row × Products p products.now }
    ensures { result ≡ pairs_pass p n row d }
{
    (0..d + 1).all(|x| pairs_through(p, products, n, row, d, x))
}

// The circulant matrix of a row, of order n, and zeros elsewhere.
fn circulant_matrix(row: [u8; 8], n: usize) -> [[u8; 8]; 8]
    requires { n ≤ 8 }
    ensures { result ≡ framed n n (λ i j. get_or row ((j + (n - i)) % n) 0) }
{
    let line = |i: usize|
        requires { (n ≤ 8) × (i < n) }
        ensures { result ≡ filled 0 (λ j. get_or row ((j + (n - i)) % n) 0) n }
    { filled(0, n, |j| row[around(j + (n - i), n)]) };
    filled([0; 8], n, line)
}

// Whether a row is good, where each entry may stand: the square blocks of sizes 1 and 2 are known to be regular, and of the others those
// are tested whose columns no rotation modulo n makes smaller.
pub fn is_good(table: &Table, n: usize, row: [u8; 8]) -> bool
    requires { CirculantOrder n × WordsInField table.now.polynomial n row × AllStand (circulant_cuts table.now.polynomial n) n row }
    ensures { result ≡ is_good circulant_shape table.now.polynomial n (take n row) }
{
    let m = circulant_matrix(row, n);
    regular_between(table, m, n, Look::Rotations(n), 2, n)
}
