// The tests of what a search is given, for its refusals.

ghost use Rattle.std.specs.Prelude.{◌≡◌};
ghost use Rattle.rows.specs.Candidates.{some_too_large, some_repeated, some_bad};
ghost use Rattle.search.specs.Answer.{is_wrong_order_for, is_wrong_count_for};

use field::table::Field;
use rows::Family;

// Whether the order is not allowed: 4 or 8 of a Hadamard matrix, 2 to 8 of a circulant one.
pub fn is_wrong_order(family: Family, n: u32) -> bool
    ensures { result ≡ is_wrong_order_for family n }
{
    match family {
        Family::Hadamard => !matches!(n, 4 | 8),
        Family::Circulant => !matches!(n, 2..=8),
    }
}

// Whether the count of candidates is not allowed: 1 to 255 at order 4 and 1 to 16 at order 8 of a Hadamard matrix, 1 to 8 of a circulant one.
pub fn is_wrong_count(family: Family, n: u32, count: usize) -> bool
    ensures { result ≡ is_wrong_count_for family n count }
{
    match family {
        Family::Hadamard => count == 0 || n == 4 && 255 < count || n == 8 && 16 < count,
        Family::Circulant => !matches!(count, 1..=8),
    }
}

// Whether some value is 2^m or more.
pub fn some_too_large(field: Field, values: &[u32]) -> bool
    ensures { result ≡ some_too_large field.polynomial values.now }
{
    values.iter().any(|a| field.too_large(*a))
}

// Whether some value stands more than one time.
fn some_repeated(values: &[u32]) -> bool
    ensures { result ≡ some_repeated values.now }
{
    for (i, a) in values.iter().enumerate() {
        if values[i + 1..].contains(a) {
            return true;
        }
    }
    false
}

// Whether a candidate is 0 or repeated.
pub fn some_bad(values: &[u32]) -> bool
    ensures { result ≡ some_bad values.now }
{
    values.contains(&0) || some_repeated(values)
}
