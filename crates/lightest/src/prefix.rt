// The walk over the rows, entry by entry: each prefix is extended by the letters that can still lead to a lighter row.

ghost use Rattle.std.specs.Prelude.{◌≡◌, ◌^◌, ◌<◌, ◌≤◌, ℕ};
ghost use Rattle.cuts.specs.Steps.Families.{cuts_of};
ghost use Rattle.lightest.specs.Steps.Prefix.{is_heavier, Brief, brief_prop};

use crate::Best;
use cuts::hadamard;
use field::table::Table;
use lines::figure::Ones;
use rows::Family;

// What does not change during a search: what is searched for, the letters, which are nonzero elements, with their table of counts and the least
// of these, and the table of the ones of all elements.
#[derive(Clone, Copy)]
pub struct Search<'t, 'o, 'a> {
    pub family: Family,
    pub order: usize,
    pub table: Table<'t>,
    pub letters: &'a [u8],
    pub counts: &'a [u8; 256],
    pub least: u32,
    pub ones: Ones<'o>,
    ghost brief: { Brief (cuts_of family table.polynomial order) table.polynomial order letters.now counts.now least } by { brief_prop family table.polynomial order letters.now counts.now least },
    ghost same_field: { ones.polynomial ≡ table.polynomial },
}

// The first entries of a row, as many as the level says: the row with zeros behind them, and the sum of their counts.
#[derive(Clone, Copy)]
pub struct Prefix {
    pub row: [u8; 8],
    pub level: usize,
    pub count: u32,
}

// Whether a row that counts at least the bound is heavier than the row kept.
fn is_heavier(bound: u32, best: Option<Best>) -> bool
    ensures { result ≡ is_heavier best bound }
{
    best.is_some_and(|kept| kept.count < bound)
}

impl<'t, 'o, 'a> Search<'t, 'o, 'a> {
    ghost use Rattle.std.specs.Prelude.{◌≡◌, true, cond, ◌++◌, ◌∷◌, [], ◌+◌, ◌-◌, ◌≤◌, get_or, take};
    ghost use Rattle.lines.specs.Numbers.{WordsInField};
    ghost use Rattle.lines.specs.Steps.Figures.{CountsOf, least_depth};
    ghost use Rattle.rows.specs.Lightest.{found, member};
    ghost use Rattle.rows.specs.Shape.{shape_of, is_good};
    ghost use Rattle.cuts.specs.Steps.Cuts.{Whole};
    ghost use Rattle.cuts.specs.Steps.Families.{is_next_of};
    ghost use Rattle.lightest.specs.Steps.Prefix.{kept, best_as, is_heavy};
    ghost use Rattle.lightest.specs.Steps.Search.{cuts_in, At, Next, bound_at, kept_behind};

    // The count of a letter.
    fn count_of(&self, a: u8) -> u32
        ensures { result ≡ get_or self.now.counts.now a 0 }
    {
        u32::from(self.counts[usize::from(a)])
    }

    // Whether a number is one of the letters.
    fn is_letter(&self, a: u8) -> bool
        ensures { result ≡ member a self.now.letters.now }
    {
        self.counts[usize::from(a)] != 255
    }

    // Whether every row that begins with these entries is heavier than the row kept, or as heavy and not shallower, by what it counts at
    // least and how deep it then is at least. Figures are added up only where the counts are equal.
    fn is_heavy(&self, at: Prefix, bound: u32, best: Option<Best>) -> bool
        requires { let s = self.now in let p = s.table.polynomial in (at.level ≤ s.order) × (bound ≤ 4095) × WordsInField p at.level at.row × CountsOf p at.level s.counts.now at.row }
        ensures { let s = self.now in result ≡ is_heavy best bound (least_depth s.table.polynomial s.order (λ j. get_or at.row j 0) at.level bound) }
    {
        let Some(kept) = best else {
            return false;
        };
        if kept.count != bound {
            return kept.count < bound;
        }
        let depth = self
            .ones
            .least_depth(self.counts, at.row, at.level, self.order, bound);
        kept.depth <= depth
    }

    // The row is kept, with what its figure tells, where it is good.
    fn finish(&self, row: [u8; 8], best: &mut Option<Best>)
        requires { let s = self.now in let p = s.table.polynomial in let n = s.order in Whole (cuts_in s) p n row × CountsOf p n s.counts.now row × (best.old ≡ kept p n (best_as n best.old)) }
        ensures { let s = self.now in let p = s.table.polynomial in let n = s.order in best.new ≡ kept p n (cond (is_good (shape_of s.family) p n (take n row)) (found (take n row)) (best_as n best.old)) }
    {
        if cuts::is_good(self.family, &self.table, self.order, row) {
            let figure = self.ones.line_figure(self.counts, row, self.order);
            *best = Some(Best {
                row,
                depth: figure.depth(),
                count: figure.count,
            });
        }
    }

    // All rows that begin with the prefix and the letter a are looked at.
    #[cycle(branch_extend_grow)]
    fn branch(&self, at: Prefix, a: u8, best: &mut Option<Best>)
        requires { At self.now at best.old × Next self.now at a }
        ensures { best.new ≡ kept_behind self.now best.old (take at.level at.row ++ a ∷ []) (self.now.order - (at.level + 1)) }
    {
        if !cuts::is_next(self.family, self.order, at.row, at.level, a) {
            return;
        }
        let left = self.order - (at.level + 1);
        let bound = at.count + self.count_of(a) + self.least * left as u32;
        if is_heavier(bound, *best) {
            return;
        }
        self.grow(at, a, bound, best);
    }

    // The same where the letter comes next by the order.
    #[cycle(branch_extend_grow)]
    fn grow(&self, at: Prefix, a: u8, bound: u32, best: &mut Option<Best>)
        requires { At self.now at best.old × Next self.now at a × (is_next_of self.now.family self.now.order (take at.level at.row) a ≡ true) × (bound ≡ bound_at self.now at a) }
        ensures { best.new ≡ kept_behind self.now best.old (take at.level at.row ++ a ∷ []) (self.now.order - (at.level + 1)) }
    {
        let mut row = at.row;
        row[at.level] = a;
        let next = Prefix {
            row,
            level: at.level + 1,
            count: at.count + self.count_of(a),
        };
        if self.is_heavy(next, bound, *best) {
            return;
        }
        if !cuts::blocks_pass(self.family, &self.table, self.order, row, at.level) {
            return;
        }
        if next.level == self.order {
            self.finish(row, best);
        } else {
            self.extend(next, best);
        }
    }

    // All rows that begin with the prefix are looked at. Where the last letter is forced, it alone is.
    #[cycle(branch_extend_grow)]
    pub fn extend(&self, at: Prefix, best: &mut Option<Best>)
        requires { At self.now at best.old }
        ensures { best.new ≡ kept_behind self.now best.old (take at.level at.row) (self.now.order - at.level) }
    {
        if cuts::is_forced(self.family, at.level + 1 == self.order) {
            let a = hadamard::last_letter(at.row, at.level);
            if self.is_letter(a) {
                self.branch(at, a, best);
            }
            return;
        }
        for &a in self.letters {
            self.branch(at, a, best);
        }
    }
}
