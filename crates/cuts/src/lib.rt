// The cuts of the walk, for each family of matrices.
#![tactic(auto)]

ghost use Rattle.std.specs.Prelude.{◌≡◌, ◌&&◌, suc, ◌<◌, ◌≤◌, take};
ghost use Rattle.lines.specs.Numbers.{WordsInField};
ghost use Rattle.rows.specs.Shape.{shape_of, is_good};
ghost use Rattle.cuts.specs.Steps.Families.{is_next_of, blocks_pass_of, is_forced, cuts_of};
ghost use Rattle.cuts.specs.Steps.Cuts.{Whole};

use field::table::Table;
use rows::Family;

pub mod circulant;
pub mod hadamard;

// Whether a comes next behind the first entries by their order.
pub fn is_next(family: Family, n: usize, row: [u8; 8], level: usize, a: u8) -> bool
    requires { (n ≤ 8) × (level < 8) }
    ensures { result ≡ is_next_of family n (take level row) a }
{
    match family {
        Family::Hadamard => hadamard::is_next(row, level, a),
        Family::Circulant => circulant::is_next(n, row, level, a),
    }
}

// Whether the blocks of size 2 pass that the entry at place d completes.
pub fn blocks_pass(family: Family, table: &Table, n: usize, row: [u8; 8], d: usize) -> bool
    requires { (d < n) × (n ≤ 8) × WordsInField table.now.polynomial (suc d) row }
    ensures { result ≡ blocks_pass_of family table.now.polynomial n row d }
{
    match family {
        Family::Hadamard => hadamard::planes_pass(table, n, row, d),
        Family::Circulant => circulant::pairs_pass(table.polynomial, table.products, n, row, d),
    }
}

// Whether one letter alone may come next: at the last place of a Hadamard row.
pub fn is_forced(family: Family, last: bool) -> bool
    ensures { result ≡ (is_forced family && last) }
{
    match family {
        Family::Hadamard => last,
        Family::Circulant => false,
    }
}

// Whether a whole row is good.
pub fn is_good(family: Family, table: &Table, n: usize, row: [u8; 8]) -> bool
    requires { Whole (cuts_of family table.now.polynomial n) table.now.polynomial n row }
    ensures { result ≡ is_good (shape_of family) table.now.polynomial n (take n row) }
{
    match family {
        Family::Hadamard => hadamard::is_good(table, n, row),
        Family::Circulant => circulant::is_good(table, n, row),
    }
}
