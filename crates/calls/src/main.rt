// The calls of the library as a filter, for the comparison with the second program: records of calls on standard input, a record of
// each answer on standard output.
#![tactic(auto)]

ghost use Rattle.std.specs.Prelude.{◌≡◌, ◌∷◌, ◌++◌, ◌+◌, ◌≤◌, length, take, drop, replicate, get_or};
ghost use Rattle.refusal.specs.Refusals.{number_of, answer_of};
ghost use Rattle.checks.specs.Answers.{words_of, checked_of};
ghost use Rattle.search.specs.Answer.{says_search};
ghost use Rattle.walk.specs.Answer.{says_walk};
ghost use Rattle.calls.specs.Records.{four_bytes, words_at, matrix_in, budget_in, as_bytes};
ghost use Rattle.calls.specs.Replies.{value_reply, words_reply, check_reply, search_reply, walk_reply, no_answer, value_answers, reply_to, reply_of};

use checks::Found;
use refusal::Refusal;
use rows::Family;
use search::LightestRow;
use std::io;
use std::io::Write;
use walk::{CountedRow, Told};

// ---- a record

// What a record asks for: the number of a call, 1 to 16, the polynomial, the order or the first value, the count or the second value, a matrix, the
// input or the row whose count is asked for, and the budget of a walk.
#[derive(Clone, Copy)]
struct Call {
    number: u32,
    p: u32,
    a: u32,
    b: u32,
    m: [[u8; 8]; 8],
    x: [u8; 8],
    budget: u64,
}

// The number in the four bytes from place `at` on.
fn number_at(bytes: &[u8], at: usize) -> u32
    requires { at + 4 ≤ length bytes.now }
    ensures { result ≡ four_bytes bytes.now at }
{
    u32::from_le_bytes([bytes[at], bytes[at + 1], bytes[at + 2], bytes[at + 3]])
}

// Eight bytes from place `at` on.
fn words_at(bytes: &[u8], at: usize) -> [u8; 8]
    requires { at + 8 ≤ length bytes.now }
    ensures { result ≡ words_at bytes.now at }
{
    let mut words = [0u8; 8];
    words.copy_from_slice(&bytes[at..at + 8]);
    words
}

// The matrix of a record.
fn matrix_of(bytes: &[u8]) -> [[u8; 8]; 8]
    requires { 80 ≤ length bytes.now }
    ensures { result ≡ matrix_in bytes.now }
{
    let mut m = [[0; 8]; 8];
    for i in 0..8 {
        m[i] = words_at(bytes, 16 + 8 * i);
    }
    m
}

// The bytes of the matrix of a record as numbers, and zeros behind them.
fn widened(bytes: &[u8]) -> [u32; 256]
    requires { 80 ≤ length bytes.now }
    ensures { result ≡ take 64 (drop 16 bytes.now) ++ replicate 192 0 }
{
    let mut values = [0u32; 256];
    for i in 0..64 {
        values[i] = u32::from(bytes[16 + i]);
    }
    values
}

// The budget of a record.
fn budget_of(bytes: &[u8]) -> u64
    requires { 88 ≤ length bytes.now }
    ensures { result ≡ budget_in bytes.now }
{
    u64::from(number_at(bytes, 80)) + u64::from(number_at(bytes, 84)) * 4294967296
}

// ---- what a call yields

// A reply: the number that is returned, four values and eight words.
fn reply_with(number: u32, values: [u32; 4], words: [u8; 8]) -> [u32; 13]
    ensures { result ≡ number ∷ values ++ words }
{
    let mut reply = [
        number, values[0], values[1], values[2], values[3], 0, 0, 0, 0, 0, 0, 0, 0,
    ];
    for i in 0..8 {
        reply[5 + i] = u32::from(words[i]);
    }
    reply
}

// The reply where a call is refused.
fn refused(reason: Refusal) -> [u32; 13]
    ensures { result ≡ number_of reason ∷ replicate 12 0 }
{
    reply_with(u32::from(reason), [0; 4], [0; 8])
}

fn value_reply(told: Result<u32, Refusal>) -> [u32; 13]
    ensures { result ≡ value_reply (answer_of told) }
{
    match told {
        Ok(value) => reply_with(0, [value, 0, 0, 0], [0; 8]),
        Err(reason) => refused(reason),
    }
}

fn words_reply(told: Result<[u8; 8], Refusal>) -> [u32; 13]
    ensures { result ≡ words_reply (words_of told) }
{
    match told {
        Ok(words) => reply_with(0, [0; 4], words),
        Err(reason) => refused(reason),
    }
}

fn check_reply(told: Result<Found, Refusal>) -> [u32; 13]
    ensures { result ≡ check_reply (checked_of told) }
{
    match told {
        Ok(found) => {
            let mds = u32::from(found.mds);
            let involution = u32::from(found.involution);
            reply_with(0, [found.branch, mds, involution, found.count], [0; 8])
        }
        Err(reason) => refused(reason),
    }
}

fn search_reply(told: Result<LightestRow, Refusal>) -> [u32; 13]
    ensures { result ≡ search_reply (says_search told) }
{
    match told {
        Ok(found) => reply_with(0, [found.sum, 0, 0, 0], found.row),
        Err(reason) => refused(reason),
    }
}

fn walk_reply(told: Result<Told, Refusal>) -> [u32; 13]
    ensures { result ≡ walk_reply (says_walk told) }
{
    match told {
        Ok(walk) => {
            let best = walk.best.unwrap_or(CountedRow {
                count: 999999,
                row: [0; 8],
            });
            let finished = u32::from(walk.finished);
            let tried = (walk.tried % 4294967296) as u32;
            reply_with(0, [finished, tried, best.count, walk.bound], best.row)
        }
        Err(reason) => refused(reason),
    }
}

// ---- the calls

// Calls 1 to 10, which yield a number.
fn value_call(call: Call) -> Result<u32, Refusal>
    ensures { answer_of result ≡ get_or (value_answers call.p call.a call.b call.m call.x) call.number no_answer }
{
    let Call { p, a, b, m, x, .. } = call;
    match call.number {
        1 => field::checked_degree(p),
        2 => field::checked_product(p, a, b),
        3 => field::checked_inverse(p, a),
        4 => field::checked_xor_count(p, a),
        5 => checks::checked_determinant(p, m, a),
        6 => checks::checked_branch_number(p, m, a),
        7 => checks::checked_mds(p, m, a),
        8 => checks::checked_involution(p, m, a),
        9 => checks::checked_matrix_count(p, m, a),
        10 => checks::checked_row_count(p, x, a),
        _ => Ok(0),
    }
}

// The reply to a call; the candidates are those of a search and of a walk.
fn reply_to(call: Call, candidates: &[u32]) -> [u32; 13]
    ensures { result ≡ reply_to call.number call.p call.a call.b call.m call.x candidates.now call.budget }
{
    let Call { p, a, m, x, .. } = call;
    match call.number {
        11 => words_reply(checks::checked_plain(p, m, x, a)),
        12 => words_reply(checks::checked_halved(p, m[0], x, a)),
        13 => check_reply(checks::checked_check(p, m, a)),
        14 => search_reply(search::search_for(Family::Hadamard, p, a, candidates)),
        15 => search_reply(search::search_for(Family::Circulant, p, a, candidates)),
        16 => walk_reply(walk::best_yet(p, a, candidates, call.budget)),
        _ => value_reply(value_call(call)),
    }
}

// The reply to a record.
fn reply_of(bytes: &[u8]) -> [u32; 13]
    requires { 88 ≤ length bytes.now }
    ensures { result ≡ reply_of bytes.now }
{
    let call = Call {
        number: number_at(bytes, 0),
        p: number_at(bytes, 4),
        a: number_at(bytes, 8),
        b: number_at(bytes, 12),
        m: matrix_of(bytes),
        x: words_at(bytes, 80),
        budget: budget_of(bytes),
    };
    let values = widened(bytes);
    let count = call.b.min(256) as usize;
    reply_to(call, &values[..count])
}

// ---- the answer

// The bytes of a reply.
fn bytes_of(reply: [u32; 13]) -> [u8; 52]
    ensures { result ≡ as_bytes reply }
{
    let mut bytes = [0u8; 52];
    for i in 0..13 {
        bytes[4 * i..4 * i + 4].copy_from_slice(&reply[i].to_le_bytes());
    }
    bytes
}

// The answer to a record.
fn respond(bytes: &[u8]) -> [u8; 52]
    requires { 88 ≤ length bytes.now }
    ensures { result ≡ as_bytes (reply_of bytes.now) }
{
    bytes_of(reply_of(bytes))
}

// At most 65,536 records of 88 bytes; what is left at the end, or where a read fails, is no record. A write that fails ends the program with its error.
fn main(rt: HostRuntime) -> io::Result<()> {
    let mut bytes = [0u8; 88];
    for _ in 0..65536 {
        let mut read = 0;
        let _ended = input::read_full(&mut rt.stdin(), &mut bytes, &mut read);
        if read < 88 {
            return Ok(());
        }
        let answer = respond(&bytes);
        rt.stdout().write_all(&answer)?;
    }
    Ok(())
}
