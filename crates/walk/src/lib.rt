// The walk over the rows of different candidates, in dictionary order: one step for each row, the best row yet, and the bound.
#![tactic(auto)]

ghost use Rattle.std.specs.Prelude.{◌≡◌, Some, is_some, IfOk, false, not, ◌&&◌, [], ◌∷◌, ◌++◌, suc, ◌+◌, ◌-◌, ◌≤◌, ◌<◌, length, replicate};
ghost use Rattle.refusal.specs.Refusals.{fault, answer_after};
ghost use Rattle.rows.specs.Candidates.{some_too_large, some_bad};
ghost use Rattle.rows.specs.Walks.{walk_of};
ghost use Rattle.rows.specs.Steps.Orders.{SearchOrder};
ghost use Rattle.lightest.specs.Steps.Letters.{count_table};
ghost use Rattle.lightest.specs.Steps.Prefix.{kept, best_as};
ghost use Rattle.search.specs.Answer.{is_none};
ghost use Rattle.walk.specs.Answer.{best_count, best_row, told_count, told_row, no_walk, walk_found, walk_answer, says_walk};
ghost use Rattle.walk.specs.Steps.Positions.{rows_of, position_at, TablesOf, StandsAt, letters_of, walked_of, IsWalk, walk_at};

use field::table::{Field, Table};
use lightest::{Best, letters};
use lines::count::addition_count;
use lines::figure::{Ones, ones_table};
use refusal::Refusal;
use rows::Family;

pub mod bound;
pub mod judge;
pub mod next;

// Where a walk stands: the next row, where one is left, how many rows are tried, and the best of them.
#[derive(Clone, Copy)]
pub struct Position {
    pub row: Option<[u8; 8]>,
    pub tried: u64,
    pub best: Option<Best>,
}

// A walk: the brief, as polynomial, order and the table of the candidates' counts, and where it stands.
#[derive(Clone, Copy)]
pub struct Walk {
    pub polynomial: u16,
    pub order: usize,
    pub counts: [u8; 256],
    pub position: Position,
}

// A row with its count, zeros behind its entries.
#[derive(Clone, Copy, Debug, PartialEq, Eq)]
pub struct CountedRow {
    pub count: u32,
    pub row: [u8; 8],
}

// What a walk tells where it stands: whether it is finished, how many rows are tried, the best of them, and the bound.
#[derive(Clone, Copy, Debug, PartialEq, Eq)]
pub struct Told {
    pub finished: bool,
    pub tried: u64,
    pub best: Option<CountedRow>,
    pub bound: u32,
}

// What does not change while rows are tried: the field's tables, the order, the letters, and the tables made of them.
#[derive(Clone, Copy)]
struct Tables<'a> {
    table: &'a Table<'a>,
    ones: &'a Ones<'a>,
    order: usize,
    letters: &'a [u8],
    counts: &'a [u8; 256],
    ranks: &'a [u8; 256],
}

impl<'a> Tables<'a> {
    // One step: the next row is tried, and the row behind it comes next.
    fn step(&self, row: [u8; 8], at: &mut Position)
        requires { TablesOf self.now × StandsAt self.now.table.now.polynomial self.now.order self.now.letters.now at.old × (at.old.row ≡ Some row) }
        ensures { at.new ≡ position_at self.now.table.now.polynomial self.now.order self.now.letters.now (suc at.old.tried) }
    {
        judge::judged(
            self.table,
            self.ones,
            self.order,
            self.counts,
            row,
            &mut at.best,
        );
        let behind = next::next_row(self.letters, self.ranks, self.order, row);
        at.row = behind;
        at.tried += 1;
    }

    // As many steps as the budget says, or to the end of the rows.
    #[inline(never)]
    fn advance(&self, at: Position, budget: u64) -> Position
        requires { TablesOf self.now × StandsAt self.now.table.now.polynomial self.now.order self.now.letters.now at }
        ensures { result ≡ position_at self.now.table.now.polynomial self.now.order self.now.letters.now (at.tried + budget) }
    {
        let mut here = at;
        for _ in 0..budget {
            let Some(row) = here.row else {
                return here;
            };
            self.step(row, &mut here);
        }
        here
    }
}

// The walk of a brief before its first row.
pub fn begin(field: Field, n: usize, candidates: &[u32]) -> Walk
    requires { SearchOrder n × (some_too_large field.polynomial candidates.now ≡ false) × (some_bad candidates.now ≡ false) }
    ensures { result ≡ walk_at field.polynomial n (count_table field.polynomial candidates.now) 0 }
{
    let counts = letters::count_table(field, candidates);
    let known = letters::letters_of(&counts, field.size());
    let letters = &known.list[..known.count];
    let ranks = next::rank_table(letters);
    let row = next::first_row(letters, &ranks, n);
    Walk {
        polynomial: field.polynomial,
        order: n,
        counts,
        position: Position {
            row,
            tried: 0,
            best: None,
        },
    }
}

// The walk after as many rows more as the budget says, or at its end.
#[inline(never)]
pub fn run(walk: Walk, budget: u64) -> Walk
    requires { IsWalk walk }
    ensures { result ≡ walk_at walk.polynomial walk.order walk.counts (walk.position.tried + budget) }
{
    let field = Field {
        polynomial: walk.polynomial,
    };
    let known = letters::letters_of(&walk.counts, field.size());
    let letters = &known.list[..known.count];
    let ranks = next::rank_table(letters);
    let mut products = [0u8; 65536];
    field.fill_products(&mut products);
    let table = Table {
        polynomial: walk.polynomial,
        products: &products,
    };
    let all_ones = ones_table(field);
    let ones = Ones {
        polynomial: walk.polynomial,
        ones: &all_ones,
    };
    let tables = Tables {
        table: &table,
        ones: &ones,
        order: walk.order,
        letters,
        counts: &walk.counts,
        ranks: &ranks,
    };
    let position = tables.advance(walk.position, budget);
    Walk { position, ..walk }
}

// ---- what a walk answers

// The row kept with the count of its elements and of its additions.
fn counted(field: Field, n: usize, best: Option<Best>) -> Option<CountedRow>
    requires { (n ≤ 8) × (best ≡ kept field.polynomial n (best_as n best)) }
    ensures count { told_count result ≡ best_count field.polynomial n (best_as n best) }
    ensures row { told_row result ≡ best_row n (best_as n best) ++ replicate (8 - n) 0 }
    ensures some { is_some result ≡ is_some best }
{
    let best = best?;
    let row = best.row;
    let count = best.count + addition_count(field, row, n);
    Some(CountedRow { count, row })
}

// What a walk answers where it stands: 9 where it is finished without a row. A row is told exactly if there is a best one.
pub fn tell(walk: Walk) -> Result<Told, Refusal>
    requires { IsWalk walk }
    ensures answer { says_walk result ≡ answer_after no_walk (fault 9 ((walked_of walk).finished && is_none (walked_of walk).best) ∷ [])
        (walk_found walk.polynomial walk.order (letters_of walk) (walked_of walk)) }
    ensures best { IfOk result (λ told. is_some told.best ≡ not (is_none (walked_of walk).best)) }
{
    let field = Field {
        polynomial: walk.polynomial,
    };
    let at = walk.position;
    let finished = at.row.is_none();
    if finished && at.best.is_none() {
        return Err(Refusal::NoRow);
    }
    let known = letters::letters_of(&walk.counts, field.size());
    let letters = &known.list[..known.count];
    let best = counted(field, walk.order, at.best);
    Ok(Told {
        finished,
        tried: at.tried,
        best,
        bound: bound::lower_bound(field, walk.order, letters),
    })
}

// The best row yet: the answer of a walk with this polynomial and order over the candidates within a budget of rows, or the refusal.
pub fn best_yet(p: u32, n: u32, candidates: &[u32], budget: u64) -> Result<Told, Refusal>
    ensures answer { says_walk result ≡ walk_answer p n candidates.now budget }
    ensures best { IfOk result (λ told. is_some told.best ≡ not (is_none (walk_of p n candidates.now budget).best)) }
{
    let field = search::checked_brief(Family::Hadamard, p, n, candidates)?;
    tell(run(begin(field, n as usize, candidates), budget))
}
