// The field of the polynomials over two elements, reduced by a chosen irreducible polynomial of degree 2 to 8.
// A polynomial is a number whose bit i is the coefficient of x^i; an element of the field of degree m is a number below 2^m.
#![tactic(auto)]

ghost use Rattle.std.specs.Prelude.{◌≡◌, ◌||◌, ◌*◌, ◌/◌, ◌^◌, ◌≤◌, ◌<◌, true, false, MatchResult};
ghost use Rattle.refusal.specs.Refusals.{answer_after, answer_of};
ghost use Rattle.refusal.specs.declared.Refusal.TheVariants.{ValueRange};
ghost use Rattle.field.specs.Fields.{GivesField};
ghost use Rattle.field.specs.Faults.{is_too_large, polynomial_faults, product_faults, inverse_faults, count_faults};
ghost use Rattle.field.specs.Polynomial.{Modulus, degree, is_irreducible, rem, product, inverse, xor_count, Products};

use refusal::Refusal;
use table::Field;

pub mod table;

// The irreducible polynomials, ascending: 1, 2, 3, 6, 9, 18 and 30 of degrees 2 to 8.
pub const TABLE: [u16; 69] = [
    7, 11, 13, 19, 25, 31, 37, 41, 47, 55, 59, 61, 67, 73, 87, 91, 97, 103, 109, 115, 117, 131,
    137, 143, 145, 157, 167, 171, 185, 191, 193, 203, 211, 213, 229, 239, 241, 247, 253, 283, 285,
    299, 301, 313, 319, 333, 351, 355, 357, 361, 369, 375, 379, 391, 395, 397, 415, 419, 425, 433,
    445, 451, 463, 471, 477, 487, 499, 501, 505,
];

// Whether the polynomial stands in the table of the irreducible ones.
pub fn irreducible(p: u16) -> bool
    requires { (4 ≤ p) × (p ≤ 511) }
    ensures { result ≡ is_irreducible p }
{
    TABLE.contains(&p)
}

// The place of the highest set bit; 0 for 0, as for 1.
pub fn degree(p: u16) -> u16
    ensures { result ≡ degree p }
{
    15 - u16::leading_zeros(p | 1) as u16
}

// The product, looked up in the table.
pub fn times(p: u16, products: &[u8; 65536], a: u8, b: u8) -> u8
    requires { (a < 2 ^ degree p) × Products p products.now }
    ensures { result ≡ product p a b }
{
    products[a as usize * 256 + b as usize]
}

// ---- the calls, which refuse wrong arguments

// The field over a polynomial that is in range and irreducible.
impl TryFrom<u32> for Field {
    type Error = Refusal;

    ghost try_from_gives = { GivesField };

    fn try_from(p: u32) -> Result<Field, Refusal> {
        if p < 4 || 511 < p {
            return Err(Refusal::PolynomialRange);
        }
        let polynomial = p as u16;
        if irreducible(polynomial) {
            Ok(Field { polynomial })
        } else {
            Err(Refusal::Reducible)
        }
    }
}

// The degree of a polynomial that is in range and irreducible.
pub fn checked_degree(p: u32) -> Result<u32, Refusal>
    ensures { answer_of result ≡ answer_after 0 (polynomial_faults p) (degree p) }
{
    let field = Field::try_from(p)?;
    Ok(u32::from(field.degree()))
}

// A value as an element of a field.
pub fn element(field: Field, a: u32) -> Result<u8, Refusal>
    ensures { MatchResult result (λ b. (b ≡ a) × (is_too_large field.polynomial a ≡ false)) (λ reason. (reason ≡ ValueRange) × (is_too_large field.polynomial a ≡ true)) }
{
    if field.too_large(a) {
        return Err(Refusal::ValueRange);
    }
    Ok(a as u8)
}

// The product of two elements of the field.
pub fn checked_product(p: u32, a: u32, b: u32) -> Result<u32, Refusal>
    ensures { answer_of result ≡ answer_after 0 (product_faults p a b) (product p a b) }
{
    let field = Field::try_from(p)?;
    let first = element(field, a)?;
    let second = element(field, b)?;
    Ok(u32::from(field.product(first, second)))
}

// The inverse of a nonzero element.
pub fn checked_inverse(p: u32, a: u32) -> Result<u32, Refusal>
    ensures { answer_of result ≡ answer_after 0 (inverse_faults p a) (inverse p a) }
{
    let field = Field::try_from(p)?;
    let first = element(field, a)?;
    if first == 0 {
        return Err(Refusal::BadCandidate);
    }
    Ok(u32::from(field.inverse(first)))
}

// The XOR count of an element.
pub fn checked_xor_count(p: u32, a: u32) -> Result<u32, Refusal>
    ensures { answer_of result ≡ answer_after 0 (count_faults p a) (xor_count p a) }
{
    let field = Field::try_from(p)?;
    let first = element(field, a)?;
    Ok(u32::from(field.xor_count(first)))
}
