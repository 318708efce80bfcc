// Looking through lent bytes for start codes, faults and the bounds of units (ITU-T H.264 B.1.1, 7.4.1).
// Each search goes 64 places at a time, and byte by byte only where one of them has what is sought. The test of a place is an or of its bytes and has no
// branch, so that the test of 64 compiles to vector code. A slice and a place in it stay two parameters: the public functions' answers are places of the slice.
ghost use Rattle.std.specs.Prelude.{◌≡◌, ℕ, [], ◌∷◌, false, ◌&&◌, ◌+◌, ◌-◌, ◌≤◌, ◌<◌, leb, eqb, length, take, drop, slice_index, IfSome, None};
ghost use Rattle.nal_unit.specs.StartCode.{code, next};
ghost use Rattle.nal_unit.specs.Unescape.{fault_here};
ghost use Rattle.nal_unit.specs.Kept.{ins_at, Flat};
ghost use Rattle.nal_unit.specs.ScanCode.{first_fault, Seeking, Sought, Scanned};
ghost use Rattle.nal_unit.specs.Walk.{blank, trim};

use crate::calm;

// Whether a start code stands at `i`.
fn code_at(s: &[u8], i: usize) -> bool
    requires { i + 3 ≤ length s.now }
    ensures { result ≡ code (drop i s.now) }
{
    s[i] | s[i + 1] | (s[i + 2] ^ 1) == 0
}

// Whether a start code begins at one of the 64 places from `i` on.
fn code64(s: &[u8], i: usize) -> bool
    requires { i + 66 ≤ length s.now }
    ensures { result ≡ false → i + next (drop i s.now) ≡ i + 64 + next (drop (i + 64) s.now) }
{
    !calm::at_each(i, i + 64, |k| !code_at(s, k))
}

// The next start code at or behind `from`, byte by byte.
fn next_plain(s: &[u8], from: usize) -> usize
    requires { from ≤ length s.now }
    ensures { result ≡ from + next (drop from s.now) }
{
    (from..s.len().saturating_sub(2))
        .find(|i| code_at(s, *i))
        .unwrap_or(s.len())
}

// The place of the next start code that stands wholly at or behind `from`, or the end; a place beyond the end is answered as it is.
pub fn next_code(s: &[u8], from: usize) -> usize
    ensures { result ≡ from + next (drop from s.now) }
{
    if s.len() < from {
        return from;
    }
    let blocks = (s.len() - from).saturating_sub(2) / 64;
    for b in 0..blocks {
        let i = from + 64 * b;
        if code64(s, i) {
            return next_plain(s, i);
        }
    }
    next_plain(s, from + 64 * blocks)
}

// Whether `c` is a 03 that the byte `d` behind it lets stand behind two zeros.
fn inserted(c: u8, d: u8) -> bool
    ensures { result ≡ eqb c 3 && leb d 3 }
{
    (c ^ 3) | (d & 252) == 0
}

// Whether the four bytes begin with a fault: 00 00 00, 00 00 01, 00 00 02, or 00 00 03 with a byte over 03 behind.
fn fault_bytes(a: u8, b: u8, c: u8, d: u8) -> bool
    ensures { result ≡ fault_here (a ∷ b ∷ c ∷ d ∷ []) }
{
    (a | b | (c & 252) == 0) & !inserted(c, d)
}

// Whether a fault begins at `i`, with three bytes or more behind it: no test of the length, so that fault64 compiles to vector code.
fn fault_in(s: &[u8], i: usize) -> bool
    requires { i + 4 ≤ length s.now }
    ensures { result ≡ fault_here (drop i s.now) }
{
    fault_bytes(s[i], s[i + 1], s[i + 2], s[i + 3])
}

// Whether a fault begins at `i`.
fn fault_at(s: &[u8], i: usize) -> bool
    requires { i + 3 ≤ length s.now }
    ensures { result ≡ fault_here (drop i s.now) }
{
    fault_bytes(s[i], s[i + 1], s[i + 2], s.get(i + 3).copied().unwrap_or(0))
}

// Whether two zeros and a byte of 03 or less stand at `i`, as in every fault and around every inserted byte.
fn low_at(s: &[u8], i: usize) -> bool
    requires { i + 3 ≤ length s.now }
    ensures { result ≡ false → (fault_here (drop i s.now) ≡ false) × (ins_at s.now (i + 2) ≡ false) }
{
    s[i] | s[i + 1] | (s[i + 2] & 252) == 0
}

// Whether such bytes stand at one of the 64 places from `i` on. Where it is false no fault begins there, and none of the 64 bytes from `i` + 2 on is an inserted one.
fn low64(s: &[u8], i: usize) -> bool
    requires { i + 66 ≤ length s.now }
    ensures { result ≡ false → Seeking s.now i (i + 64) (i + 2) }
{
    !calm::at_each(i, i + 64, |k| !low_at(s, k))
}

// Whether a fault begins at one of the 64 places from `i` on.
fn fault64(s: &[u8], i: usize) -> bool
    requires { i + 67 ≤ length s.now }
    ensures { result ≡ false → i + first_fault (drop i s.now) ≡ i + 64 + first_fault (drop (i + 64) s.now) }
{
    !calm::at_each(i, i + 64, |k| !fault_in(s, k))
}

// The first fault, or the end, and a place from which on no inserted byte stands before it.
#[derive(Clone, Copy, Debug, PartialEq, Eq)]
pub struct Found {
    pub fault: usize,
    pub calm: usize,
}

// The first fault at or behind `from`, byte by byte. No inserted byte stands from `calm` up to `from` + 2.
fn seek_plain(s: &[u8], from: usize, mut calm: usize) -> Found
    requires from_in_bounds { from ≤ length s.now }
    requires le_calm { (1 ≤ calm) × Flat s.now calm (from + 2) }
    ensures { Sought s.now from result }
{
    for i in from..s.len().saturating_sub(2) {
        if low_at(s, i) {
            if fault_at(s, i) {
                return Found { fault: i, calm };
            }
            calm = i + 3;
        }
    }
    Found {
        fault: s.len(),
        calm,
    }
}

// The first fault at or behind `from`. The quick test finds inserted bytes too, and so the last 64 places that have any; only there the exact test is made.
fn seek(s: &[u8], from: usize) -> Found
    requires { from ≤ length s.now }
    ensures { Sought s.now from result }
{
    let blocks = (s.len() - from).saturating_sub(3) / 64;
    let mut calm = from + 2;
    for b in 0..blocks {
        let i = from + 64 * b;
        if low64(s, i) {
            if fault64(s, i) {
                return seek_plain(s, i, calm);
            }
            calm = i + 66;
        }
    }
    seek_plain(s, from + 64 * blocks, calm)
}

// The place of the first fault at or behind `from`, or the end; a place beyond the end is answered as it is.
pub fn first_fault(s: &[u8], from: usize) -> usize
    ensures { result ≡ from + first_fault (drop from s.now) }
{
    if s.len() < from {
        return from;
    }
    seek(s, from).fault
}

// Where a unit ends: the next start code or the end, the place behind the unit's last byte, and a place from which on no inserted byte stands in it; None
// where the unit has a fault, since what is behind the fault was not looked at.
#[derive(Clone, Copy, Debug, PartialEq, Eq)]
pub struct UnitScan {
    pub end: usize,
    pub stop: usize,
    pub calm: Option<usize>,
}

// The place of the last byte that is not zero.
fn last_nonzero(s: &[u8]) -> Option<usize>
    ensures none { result ≡ None → (k : ℕ) → k < length s.now → slice_index s.now k ≡ 0 }
    ensures some { IfSome result (λ k. (k < length s.now) × (0 < slice_index s.now k) × ((j : ℕ) → k < j → j < length s.now → slice_index s.now j ≡ 0)) }
{
    s.iter().rposition(|b| *b != 0)
}

// The place behind the last byte that is not zero of those from `from` to `end`, or `from` where all are.
fn trim_end(s: &[u8], from: usize, end: usize) -> usize
    requires from_le_end { from ≤ end }
    requires end_in_bounds { end ≤ length s.now }
    ensures { result ≡ from + length (trim (take (end - from) (drop from s.now))) }
{
    last_nonzero(&s[from..end]).map_or(from, |k| from + k + 1)
}

// The unit whose bytes begin at `from`, behind its start code. Trailing zeros are no part of it, also for the fault.
pub fn unit_scan(s: &[u8], from: usize) -> UnitScan
    ensures { Scanned s.now from result }
{
    if s.len() < from {
        return UnitScan {
            end: from,
            stop: from,
            calm: Some(from),
        };
    }
    let found = seek(s, from);
    let end = next_code(s, found.fault);
    let stop = trim_end(s, from, end);
    let bad = found.fault + 3 <= stop;
    UnitScan {
        end,
        stop,
        calm: if bad { None } else { Some(found.calm) },
    }
}

// Whether the bytes from `from` to `to` are all zero. It goes 64 places at a time, and looks at none behind those that have another byte. Beside `calm::void`,
// which takes a place and a count: docs/DECISIONS.md names both.
pub fn all_zero(s: &[u8], from: usize, to: usize) -> bool
    requires { to ≤ length s.now }
    ensures { result ≡ blank (take (to - from) (drop from s.now)) }
{
    let blocks = to.saturating_sub(from) / 64;
    for b in 0..blocks {
        let i = from + 64 * b;
        if !calm::at_each(i, i + 64, |k| s[k] == 0) {
            return false;
        }
    }
    calm::at_each(from + 64 * blocks, to, |k| s[k] == 0)
}
