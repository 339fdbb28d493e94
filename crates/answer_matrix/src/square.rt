// Square matrices.

ghost use Rattle.std.specs.Prelude.{◌≤◌};
ghost use Rattle.std.proofs.Props.{props};
ghost use Rattle.lines.specs.Numbers.{InField};

use field::table::Field;

// A matrix over a field, of order 1 to 8, with zeros behind its entries.
#[derive(Clone, Copy)]
pub struct Matrix {
    pub field: Field,
    pub order: usize,
    pub entries: [[u8; 8]; 8],
    ghost low: { 1 ≤ order },
    ghost high: { order ≤ 8 },
    ghost inside: { InField field.polynomial order order entries } by { unfold InField in Prim.hlevel props },
}
