// Arrays of eight of which the first places count.

ghost use Rattle.std.specs.Prelude.{◌≡◌, ℕ, ◌<◌, ◌≤◌, get_or};

// The values of f at the first n places, and `empty` behind them.
pub fn filled<T: Copy, F: Fn(usize) -> T>(empty: T, n: usize, f: F) -> [T; 8]
    requires most { n ≤ 8 }
    requires callable { (i : ℕ) → i < n → F.pre f i }
    ensures first { (i : ℕ) → i < n → F.post f i (get_or result i empty) }
    ensures behind { (i : ℕ) → n ≤ i → get_or result i empty ≡ empty }
{
    let mut r = [empty; 8];
    for i in 0..n {
        r[i] = f(i);
    }
    r
}
