// The public calls on matrices: what they are given is judged first, and refused with the lowest number that applies.
#![tactic(auto)]

ghost use Rattle.std.specs.Prelude.{◌≡◌, ◌++◌, ◌-◌, ◌≤◌, get_or, replicate};
ghost use Rattle.refusal.specs.Refusals.{answer_after, answer_of};
ghost use Rattle.algebra.specs.Matrix.{apply, hadamard, det, branch_number, is_mds, is_involution};
ghost use Rattle.lines.specs.Numbers.{numbers, elements, entry, InField};
ghost use Rattle.lines.specs.Counts.{row_count, matrix_count};
ghost use Rattle.checks.specs.Answers.{yes_no, is_wrong_order, is_wrong_halved_order, some_word_too_large, some_entry_too_large, determinant_faults, matrix_faults, row_faults, plain_faults, halved_faults};
ghost use Rattle.checks.specs.Answers.{words_of, check_found, checked_of, check_of};
ghost use Rattle.checks.specs.Steps.{OrderPasses, MatrixPasses};

use field::table::{Field, Table};
use lines::count;
use matrix::block;
use matrix::block::Look;
use properties::{branch, involution};
use refusal::Refusal;

// ---- faults

// Whether the order is not from 1 to 8.
pub fn is_wrong_order(n: u32) -> bool
    ensures { result ≡ is_wrong_order n }
{
    !matches!(n, 1..=8)
}

// Whether the order is none of 2, 4 and 8.
fn is_wrong_halved_order(n: u32) -> bool
    ensures { result ≡ is_wrong_halved_order n }
{
    !matches!(n, 2 | 4 | 8)
}

// Whether one of the first n words is 2^m or more, m the degree.
fn word_too_large(field: Field, row: [u8; 8], n: usize) -> bool
    requires { n ≤ 8 }
    ensures { result ≡ some_word_too_large field.polynomial n row }
{
    row[..n].iter().any(|a| field.too_large(u32::from(*a)))
}

// Whether one of the entries of a matrix of order n is.
fn entry_too_large(field: Field, m: [[u8; 8]; 8], n: usize) -> bool
    requires { n ≤ 8 }
    ensures { result ≡ some_entry_too_large field.polynomial n (entry m) }
{
    m[..n].iter().any(|line| word_too_large(field, *line, n))
}

// The field of a call whose polynomial and order pass; else the reason, with 3, 4 or 5, whatever the values are.
fn field_for(p: u32, wrong_order: bool) -> Result<Field, Refusal>
    ensures { OrderPasses p wrong_order result }
{
    let field = Field::try_from(p)?;
    if wrong_order {
        return Err(Refusal::OrderRange);
    }
    Ok(field)
}

// The field of a matrix of order 1 to 8 with all its entries below 2^m; else the reason.
fn field_for_matrix(p: u32, m: [[u8; 8]; 8], n: u32) -> Result<Field, Refusal>
    ensures { MatrixPasses p n m result }
{
    let field = field_for(p, is_wrong_order(n))?;
    if entry_too_large(field, m, n as usize) {
        return Err(Refusal::ValueRange);
    }
    Ok(field)
}

// ---- with a table of products of their own

// The determinant.
#[inline(never)]
fn determinant_of(field: Field, m: [[u8; 8]; 8], n: usize) -> u8
    requires { (n ≤ 8) × InField field.polynomial n n m }
    ensures { result ≡ det (numbers field.polynomial) n (entry m) }
{
    let mut products = [0u8; 65536];
    field.fill_products(&mut products);
    let table = Table {
        polynomial: field.polynomial,
        products: &products,
    };
    block::determinant(&table, m, n)
}

// The branch number.
#[inline(never)]
fn branch_number_of(field: Field, m: [[u8; 8]; 8], n: usize) -> usize
    requires { (1 ≤ n) × (n ≤ 8) × InField field.polynomial n n m }
    ensures { result ≡ branch_number (numbers field.polynomial) (elements field.polynomial) n (entry m) }
{
    let mut products = [0u8; 65536];
    field.fill_products(&mut products);
    let table = Table {
        polynomial: field.polynomial,
        products: &products,
    };
    branch::branch_number(&table, m, n)
}

// Whether every square block has a nonzero determinant.
#[inline(never)]
fn is_mds(field: Field, m: [[u8; 8]; 8], n: usize) -> bool
    requires { (1 ≤ n) × (n ≤ 8) × InField field.polynomial n n m }
    ensures { result ≡ is_mds (numbers field.polynomial) (elements field.polynomial) n (entry m) }
{
    let mut products = [0u8; 65536];
    field.fill_products(&mut products);
    let table = Table {
        polynomial: field.polynomial,
        products: &products,
    };
    block::regular_between(&table, m, n, Look::All, 0, n)
}

// ---- calls that yield a number

// The determinant of a block of size 0 to 8.
pub fn checked_determinant(p: u32, m: [[u8; 8]; 8], n: u32) -> Result<u32, Refusal>
    ensures { answer_of result ≡ answer_after 0 (determinant_faults p n (entry m)) (det (numbers p) n (entry m)) }
{
    let field = field_for(p, 8 < n)?;
    if entry_too_large(field, m, n as usize) {
        return Err(Refusal::ValueRange);
    }
    Ok(u32::from(determinant_of(field, m, n as usize)))
}

// The branch number of a matrix of order 1 to 8.
pub fn checked_branch_number(p: u32, m: [[u8; 8]; 8], n: u32) -> Result<u32, Refusal>
    ensures { answer_of result ≡ answer_after 0 (matrix_faults p n (entry m)) (branch_number (numbers p) (elements p) n (entry m)) }
{
    let field = field_for_matrix(p, m, n)?;
    Ok(branch_number_of(field, m, n as usize) as u32)
}

// Whether it is MDS: whether every square block has a nonzero determinant.
pub fn checked_mds(p: u32, m: [[u8; 8]; 8], n: u32) -> Result<u32, Refusal>
    ensures { answer_of result ≡ answer_after 0 (matrix_faults p n (entry m)) (yes_no (is_mds (numbers p) (elements p) n (entry m))) }
{
    let field = field_for_matrix(p, m, n)?;
    Ok(u32::from(is_mds(field, m, n as usize)))
}

// Whether it is an involution.
pub fn checked_involution(p: u32, m: [[u8; 8]; 8], n: u32) -> Result<u32, Refusal>
    ensures { answer_of result ≡ answer_after 0 (matrix_faults p n (entry m)) (yes_no (is_involution (numbers p) (elements p) n (entry m))) }
{
    let field = field_for_matrix(p, m, n)?;
    Ok(u32::from(involution::involution(field, m, n as usize)))
}

// Its XOR count.
pub fn checked_matrix_count(p: u32, m: [[u8; 8]; 8], n: u32) -> Result<u32, Refusal>
    ensures { answer_of result ≡ answer_after 0 (matrix_faults p n (entry m)) (matrix_count p n (entry m)) }
{
    let field = field_for_matrix(p, m, n)?;
    Ok(count::matrix_count(field, m, n as usize))
}

// The XOR count of a row of 1 to 8 elements.
pub fn checked_row_count(p: u32, row: [u8; 8], n: u32) -> Result<u32, Refusal>
    ensures { answer_of result ≡ answer_after 0 (row_faults p n row) (row_count p n (λ j. get_or row j 0)) }
{
    let field = field_for(p, is_wrong_order(n))?;
    if word_too_large(field, row, n as usize) {
        return Err(Refusal::ValueRange);
    }
    Ok(count::row_count(field, row, n as usize))
}

// ---- calls that yield words

// The plain product of a matrix with an input.
pub fn checked_plain(p: u32, m: [[u8; 8]; 8], x: [u8; 8], n: u32) -> Result<[u8; 8], Refusal>
    ensures { words_of result ≡ answer_after (replicate 8 0) (plain_faults p n (entry m) x)
        (apply (numbers p) n (entry m) x ++ replicate (8 - n) 0) }
{
    let field = field_for(p, is_wrong_order(n))?;
    let n = n as usize;
    if entry_too_large(field, m, n) || word_too_large(field, x, n) {
        return Err(Refusal::ValueRange);
    }
    Ok(multiply::plain(field, m, x, n))
}

// The product of a row's Hadamard matrix of order 2, 4 or 8 with an input, by halves.
pub fn checked_halved(p: u32, row: [u8; 8], x: [u8; 8], n: u32) -> Result<[u8; 8], Refusal>
    ensures { words_of result ≡ answer_after (replicate 8 0) (halved_faults p n row x)
        (apply (numbers p) n (hadamard (numbers p) row) x ++ replicate (8 - n) 0) }
{
    let field = field_for(p, is_wrong_halved_order(n))?;
    let n = n as usize;
    if word_too_large(field, row, n) || word_too_large(field, x, n) {
        return Err(Refusal::ValueRange);
    }
    Ok(multiply::halved(field, row, x, n))
}

// ---- the check

// All that is found of a matrix: its branch number, whether it is MDS, whether it is an involution, and its XOR count.
#[derive(Clone, Copy, Debug, PartialEq, Eq)]
pub struct Found {
    pub branch: u32,
    pub mds: bool,
    pub involution: bool,
    pub count: u32,
}

// What is found of a matrix. It is MDS where the branch number is the order plus one.
pub fn check(field: Field, m: [[u8; 8]; 8], n: usize) -> Found
    requires { (1 ≤ n) × (n ≤ 8) × InField field.polynomial n n m }
    ensures { check_found result ≡ check_of field.polynomial n (entry m) }
{
    let branch = branch_number_of(field, m, n);
    Found {
        branch: branch as u32,
        mds: branch == n + 1,
        involution: involution::involution(field, m, n),
        count: count::matrix_count(field, m, n),
    }
}

// The check of a matrix of order 1 to 8.
pub fn checked_check(p: u32, m: [[u8; 8]; 8], n: u32) -> Result<Found, Refusal>
    ensures { checked_of result ≡ answer_after (replicate 4 0) (matrix_faults p n (entry m)) (check_of p n (entry m)) }
{
    let field = field_for_matrix(p, m, n)?;
    Ok(check(field, m, n as usize))
}
