// Tests of a stretch of bytes. A stretch stays a slice, a place and a length: the tests look at the two bytes before it, and the clauses of `calm` and `void`
// name the places.
ghost use Rattle.std.specs.Prelude.{◌≡◌, ℕ, true, false, ◌+◌, ◌≤◌, ◌<◌, length};
ghost use Rattle.lists.specs.Flag.{every};
ghost use Rattle.nal_unit.specs.EscapeCode.{counted};
ghost use Rattle.nal_unit.specs.CalmCode.{plain_at, zero_at};

// Whether `test` holds at each place from `from` up to `to`. It looks at all of them, also behind one where the test fails, and so compiles to vector code.
pub fn at_each<F: Fn(usize) -> bool>(from: usize, to: usize, test: F) -> bool
    requires { (k : ℕ) → from ≤ k → k < to → F.pre test k }
    ensures holds { result ≡ true → (k : ℕ) → from ≤ k → k < to → F.post test k true }
    ensures fails { result ≡ false → (k : ℕ) × (from ≤ k) × (k < to) × F.post test k false }
{
    let mut all = true;
    for k in from..to {
        all &= test(k);
    }
    all
}

// Whether the byte at the place k is over 03, or not behind two zeros: whether it stands as it is in an escape.
pub fn plain(s: &[u8], k: usize) -> bool
    requires { (2 ≤ k) × (k < length s.now) }
    ensures { result ≡ plain_at s.now k }
{
    s[k - 2] | s[k - 1] | (s[k] & 252) != 0
}

// Whether none of the n bytes from the place p on is 03 or less behind two zeros: whether the stretch is its own escape.
pub fn calm(s: &[u8], p: usize, n: usize) -> bool
    requires le_p { 2 ≤ p }
    requires n_in_bounds { p + n ≤ length s.now }
    ensures { result ≡ every (plain_at s.now) p n }
{
    at_each(p, p + n, |k| plain(s, k))
}

// Whether the n bytes from the place p on are all zero.
pub fn void(s: &[u8], p: usize, n: usize) -> bool
    requires { p + n ≤ length s.now }
    ensures { result ≡ every (zero_at s.now) p n }
{
    at_each(p, p + n, |k| s[k] == 0)
}

// How many zeros stand right before the place p, two at most.
pub fn zeros_before(s: &[u8], p: usize) -> usize
    requires le_p { 2 ≤ p }
    requires p_in_bounds { p ≤ length s.now }
    ensures { result ≡ counted s.now p }
{
    if s[p - 1] != 0 {
        return 0;
    }
    if s[p - 2] != 0 {
        return 1;
    }
    2
}
