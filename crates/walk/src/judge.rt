// One row of a walk: whether it passes the cuts and is good, and the better one of it and the row kept.

ghost use Rattle.std.specs.Prelude.{◌≡◌, ◌≤◌, get_or, take};
ghost use Rattle.field.specs.Steps.{every_below};
ghost use Rattle.lines.specs.Numbers.{WordsInField};
ghost use Rattle.lines.specs.Steps.Figures.{CountsOf};
ghost use Rattle.rows.specs.Lightest.{keep};
ghost use Rattle.rows.specs.Keys.{key_of};
ghost use Rattle.cuts.specs.Steps.Hadamard.{is_next, planes_pass};
ghost use Rattle.cuts.specs.Steps.Cuts.{tried};
ghost use Rattle.cuts.specs.Steps.Families.{hadamard_cuts};
ghost use Rattle.lightest.specs.Steps.Prefix.{kept, best_as, is_heavy};
ghost use Rattle.walk.specs.Steps.Judging.{Judging};

use cuts::hadamard;
use field::table::Table;
use lightest::Best;
use lines::figure::Ones;

// Whether each entry comes next by the order behind those before it. Most rows of a walk fail here, at one of the first entries.
fn all_next(n: usize, row: [u8; 8]) -> bool
    requires { n ≤ 8 }
    ensures { result ≡ every_below n (λ d. is_next (take d row) (get_or row d 0)) }
{
    (0..n).all(|d| hadamard::is_next(row, d, row[d]))
}

// Whether all planes of the row pass.
fn planes_hold(table: &Table, n: usize, row: [u8; 8]) -> bool
    requires { (n ≤ 8) × WordsInField table.now.polynomial n row }
    ensures { result ≡ every_below n (planes_pass table.now.polynomial n row) }
{
    (0..n).all(|d| hadamard::planes_pass(table, n, row, d))
}

// Whether the row passes the cuts and is good: first its order, then its last entry, its planes, and its larger blocks.
fn is_tried(table: &Table, n: usize, row: [u8; 8]) -> bool
    requires { Judging table.now.polynomial n row }
    ensures { result ≡ tried (hadamard_cuts table.now.polynomial n) table.now.polynomial n (take n row) }
{
    all_next(n, row)
        && hadamard::last_letter(row, n - 1) == row[n - 1]
        && planes_hold(table, n, row)
        && hadamard::is_good(table, n, row)
}

// Whether a row of this count and this depth is heavier than the row kept, or as heavy and not shallower.
fn is_heavy(count: u32, depth: u8, best: Option<Best>) -> bool
    ensures { result ≡ is_heavy best count depth }
{
    best.is_some_and(|kept| kept.count < count || kept.count == count && kept.depth <= depth)
}

// Keeps this row in the place of the row kept where it passes the cuts, is good, and is lighter. Nothing is moved otherwise.
pub fn judged(
    table: &Table,
    ones: &Ones,
    n: usize,
    counts: &[u8; 256],
    row: [u8; 8],
    best: &mut Option<Best>,
)
    requires { Judging table.now.polynomial n row × CountsOf table.now.polynomial n counts.now row × (ones.now.polynomial ≡ table.now.polynomial)
        × (best.old ≡ kept table.now.polynomial n (best_as n best.old)) }
    ensures { best.new ≡ kept table.now.polynomial n
        (keep (tried (hadamard_cuts table.now.polynomial n) table.now.polynomial n) (key_of table.now.polynomial n) (best_as n best.old) (take n row)) }
{
    if !is_tried(table, n, row) {
        return;
    }
    let found = ones.line_figure(counts, row, n);
    let depth = found.depth();
    if !is_heavy(found.count, depth, *best) {
        *best = Some(Best {
            row,
            depth,
            count: found.count,
        });
    }
}
