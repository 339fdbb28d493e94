// The walk to the lightest row over the candidates: letters, prefixes, and the row kept.
#![tactic(auto)]

ghost use Rattle.std.specs.Prelude.{◌≡◌, false};
ghost use Rattle.rows.specs.Candidates.{some_too_large, some_bad};
ghost use Rattle.rows.specs.Shape.{shape_of};
ghost use Rattle.rows.specs.Keys.{lightest_row};
ghost use Rattle.cuts.specs.Steps.Families.{OrderOf};
ghost use Rattle.lightest.specs.Steps.Prefix.{kept};

use field::table::{Field, Table};
use lines::figure::{Ones, ones_table};
use prefix::{Prefix, Search};
use rows::Family;

pub mod letters;
mod prefix;

// A best row: its entries with zeros behind them, its depth, and the sum of its counts.
#[derive(Clone, Copy)]
pub struct Best {
    pub row: [u8; 8],
    pub depth: u8,
    pub count: u32,
}

// The lightest row over the candidates, which are nonzero elements.
#[inline(never)]
pub fn lightest_row(family: Family, field: Field, n: usize, candidates: &[u32]) -> Option<Best>
    requires { OrderOf family n × (some_too_large field.polynomial candidates.now ≡ false) × (some_bad candidates.now ≡ false) }
    ensures { result ≡ kept field.polynomial n (lightest_row (shape_of family) field.polynomial n candidates.now) }
{
    let counts = letters::count_table(field, candidates);
    let known = letters::letters_of(&counts, field.size());
    let letters = &known.list[..known.count];
    let least = u32::from(letters::least_count(&counts, letters));
    let all_ones = ones_table(field);
    let mut products = [0u8; 65536];
    field.fill_products(&mut products);
    let table = Table {
        polynomial: field.polynomial,
        products: &products,
    };
    let ones = Ones {
        polynomial: field.polynomial,
        ones: &all_ones,
    };
    let search = Search {
        family,
        order: n,
        table,
        letters,
        counts: &counts,
        least,
        ones,
    };
    let start = Prefix {
        row: [0; 8],
        level: 0,
        count: 0,
    };
    let mut best = None;
    search.extend(start, &mut best);
    best
}
