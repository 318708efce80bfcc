// The length of an escaped payload, found without writing it. The count of zero bytes is carried. s, p and n stay parameters and are no
// slice: the bytes before p are looked at, too.
ghost use Rattle.std.specs.Prelude.{◌≡◌, ◌∷◌, [], ◌+◌, ◌^◌, ◌≤◌, ◌<◌, length};
ghost use Rattle.lists.specs.Part.{part};
ghost use Rattle.nal_unit.specs.EscapeCode.{counted};
ghost use Rattle.nal_unit.specs.CountCode.{Counts};

use crate::calm;

// A stretch of payload: the bytes that its escape has, and the zero bytes counted behind it.
#[derive(Clone, Copy, Debug, PartialEq, Eq)]
pub struct Count {
    pub n: usize,
    pub z: usize,
}

impl Count {
    // This stretch and the next one, which was counted on from here.
    fn then(self, next: Count) -> Count
        requires { self.n + next.n < 2 ^ 64 }
        ensures { (result.n ≡ self.n + next.n) × (result.z ≡ next.z) }
    {
        Count {
            n: self.n + next.n,
            z: next.z,
        }
    }
}

// One byte of payload after z counted zeros.
fn count_byte(z: usize, b: u8) -> Count
    requires { z ≤ 2 }
    ensures { Counts z (b ∷ []) result.n result.z }
{
    if b > 3 {
        return Count { n: 1, z: 0 };
    }
    if z < 2 {
        if b == 0 {
            return Count { n: 1, z: z + 1 };
        }
        return Count { n: 1, z: 0 };
    }
    if b == 0 {
        return Count { n: 2, z: 1 };
    }
    Count { n: 2, z: 0 }
}

// The n bytes of payload from the place p of s on, after z counted zeros, byte by byte.
fn count_bytes(s: &[u8], p: usize, n: usize, z: usize) -> Count
    requires n_in_bounds { p + n ≤ length s.now }
    requires z_bound { z ≤ 2 }
    ensures { Counts z (part s.now p n) result.n result.z }
{
    let mut all = Count { n: 0, z };
    for b in &s[p..p + n] {
        all = all.then(count_byte(all.z, *b));
    }
    all
}

// The 64 bytes of payload from the place p of s on. As many zeros stand before p as are counted, or more.
fn count64(s: &[u8], p: usize, z: usize) -> Count
    requires le_p { (2 ≤ p) × (p + 64 ≤ length s.now) }
    requires z_bound { z ≤ 2 }
    requires z_bound_2 { z ≤ counted s.now p }
    ensures { Counts z (part s.now p 64) result.n result.z }
{
    if calm::calm(s, p, 64) {
        return Count {
            n: 64,
            z: calm::zeros_before(s, p + 64),
        };
    }
    if z > 0 && calm::void(s, p, 64) {
        return Count { n: 96, z };
    }
    count_bytes(s, p, 64, z)
}

// The n bytes of payload from the place p of s on, 64 at a time and the last ones byte by byte, on the terms of count64.
fn count_chunks(s: &[u8], p: usize, n: usize, z: usize) -> Count
    requires le_p { (2 ≤ p) × (p + n ≤ length s.now) }
    requires z_bound { z ≤ 2 }
    requires z_bound_2 { z ≤ counted s.now p }
    ensures { Counts z (part s.now p n) result.n result.z }
{
    let whole = n / 64;
    let mut all = Count { n: 0, z };
    for i in 0..whole {
        all = all.then(count64(s, p + 64 * i, all.z));
    }
    let k = 64 * whole;
    all.then(count_bytes(s, p + k, n - k, all.z))
}

// The n bytes of payload from the place p of s on, after z counted zeros.
pub fn count_slice(s: &[u8], p: usize, n: usize, z: usize) -> Count
    requires n_in_bounds { p + n ≤ length s.now }
    requires z_bound { z ≤ 2 }
    ensures { Counts z (part s.now p n) result.n result.z }
{
    if n < 66 {
        return count_bytes(s, p, n, z);
    }
    let first = count_bytes(s, p, 2, z);
    first.then(count_chunks(s, p + 2, n - 2, first.z))
}
