// The rows of different letters in dictionary order: the first row, and the row behind a row. The letters ascend.

ghost use Rattle.std.specs.Prelude.{◌≡◌, not, ◌&&◌, cond, suc, ◌-◌, ◌≤◌, ◌<◌, ltb, eqb, length, get_or, take, drop, replicate, MatchOption};
ghost use Rattle.std.specs.List.{find, list_any};
ghost use Rattle.rows.specs.Lightest.{member};
ghost use Rattle.walk.specs.Steps.Successors.{count_below, rank_table, Ranked, Ascend, free_above, eight, filled_up, FirstIs, BehindIs};

// One more letter is below a + 1, where the next letter is a.
fn below_next(letters: &[u8], i: usize, a: usize) -> usize
    requires { Ascend letters.now × (i ≡ count_below letters.now a) }
    ensures { result ≡ count_below letters.now (suc a) }
{
    if i < letters.len() && usize::from(letters[i]) == a {
        return i + 1;
    }
    i
}

// For each number how many letters are not above it.
pub fn rank_table(letters: &[u8]) -> [u8; 256]
    requires { Ascend letters.now × (length letters.now ≤ 255) }
    ensures { result ≡ rank_table letters.now }
{
    let mut r = [0u8; 256];
    let mut i = 0;
    for a in 0..256 {
        i = below_next(letters, i, a);
        r[a] = i as u8;
    }
    r
}

// Whether a is used.
fn is_used(used: &[u8], a: u8) -> bool
    ensures { result ≡ list_any (λ u. eqb u a) used.now }
{
    used.iter().any(|u| *u == a)
}

// The first letter that is not used.
fn first_free(letters: &[u8], used: &[u8]) -> Option<u8>
    ensures { result ≡ find (λ a. not (list_any (λ u. eqb u a) used.now)) letters.now }
{
    letters.iter().copied().find(|a| !is_used(used, *a))
}

// The least letter above a that is not used.
fn free_above(letters: &[u8], ranks: &[u8; 256], used: &[u8], a: u8) -> Option<u8>
    requires { Ranked letters.now ranks.now }
    ensures { MatchOption result (free_above letters.now used.now a ≡ 0) (λ x. (0 < x) × (x ≡ free_above letters.now used.now a)) }
{
    let rank = usize::from(ranks[usize::from(a)]);
    first_free(&letters[rank..], used)
}

// The first entries with the least free letters behind them.
fn filled(letters: &[u8], ranks: &[u8; 256], n: usize, row: [u8; 8], level: usize) -> [u8; 8]
    requires { (level ≤ n) × (n ≤ 8) × Ranked letters.now ranks.now × (drop n row ≡ replicate (8 - n) 0) }
    ensures { result ≡ eight n (filled_up letters.now (take level row) (n - level)) }
{
    let mut r = row;
    for i in level..n {
        r[i] = free_above(letters, ranks, &r[..i], 0).unwrap_or(0);
    }
    r
}

// The first row, where there are as many letters as places.
pub fn first_row(letters: &[u8], ranks: &[u8; 256], n: usize) -> Option<[u8; 8]>
    requires { (n ≤ 8) × Ranked letters.now ranks.now }
    ensures { FirstIs letters.now n result }
{
    if letters.len() < n {
        return None;
    }
    Some(filled(letters, ranks, n, [0; 8], 0))
}

// The row behind a row: the last entry that can be raised is, and the least free letters follow. None behind the last row.
pub fn next_row(letters: &[u8], ranks: &[u8; 256], n: usize, row: [u8; 8]) -> Option<[u8; 8]>
    requires { (n ≤ 8) × Ranked letters.now ranks.now × (drop n row ≡ replicate (8 - n) 0) }
    ensures { BehindIs letters.now n (take n row) result }
{
    for i in (0..n).rev() {
        if let Some(a) = free_above(letters, ranks, &row[..i], row[i]) {
            let mut raised = row;
            raised[i] = a;
            return Some(filled(letters, ranks, n, raised, i + 1));
        }
    }
    None
}
