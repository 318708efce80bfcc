// Writing an escaped payload 64 bytes at a time. s, p and n stay parameters and are no slice: the bytes before p are looked at, too.
ghost use Rattle.std.specs.Prelude.{◌≡◌, ◌+◌, ◌<◌, ◌≤◌, length};
ghost use Rattle.lists.specs.Part.{part};
ghost use Rattle.nal_unit.specs.Escape.{esc_from};
ghost use Rattle.nal_unit.specs.EscapeCode.{counted};
ghost use Rattle.nal_unit.specs.CalmCode.{blanks};
ghost use Rattle.nal_unit.specs.PutCode.{Put};

use crate::{calm, put, rows};

// What 64 zeros of payload are written as behind one counted zero: 32 pairs, each with 03 before its second, after which one is counted again.
const BEHIND_ONE: &[u8; 96] =
    b"\0\x03\0\0\x03\0\0\x03\0\0\x03\0\0\x03\0\0\x03\0\0\x03\0\0\x03\0\0\x03\0\0\x03\0\0\x03\0\0\x03\0\0\x03\0\0\x03\0\0\x03\0\0\x03\0\0\x03\0\0\x03\0\0\x03\0\0\x03\0\0\x03\0\0\x03\0\0\x03\0\0\x03\0\0\x03\0\0\x03\0\0\x03\0\0\x03\0\0\x03\0\0\x03\0\0\x03\0\0\x03\0";

// The same behind two counted zeros: each pair has 03 before its first.
const BEHIND_TWO: &[u8; 96] =
    b"\x03\0\0\x03\0\0\x03\0\0\x03\0\0\x03\0\0\x03\0\0\x03\0\0\x03\0\0\x03\0\0\x03\0\0\x03\0\0\x03\0\0\x03\0\0\x03\0\0\x03\0\0\x03\0\0\x03\0\0\x03\0\0\x03\0\0\x03\0\0\x03\0\0\x03\0\0\x03\0\0\x03\0\0\x03\0\0\x03\0\0\x03\0\0\x03\0\0\x03\0\0\x03\0\0\x03\0\0\x03\0\0";

// Writes 64 zeros of payload as the pairs that they are behind the zeros counted.
fn put_zeros(pairs: &[u8; 96], out: &mut [u8], at: usize) -> usize
    requires pairs_value { pairs.now ≡ esc_from (counted out.old at) (blanks 64) }
    requires at_in_bounds { at + 96 ≤ length out.old }
    ensures { Put out.old at (blanks 64) out.new result }
{
    rows::copy_fixed::<96>(pairs, 0, out, at);
    at + 96
}

// Writes 64 bytes of payload, from the place p of s on, at the place `at` of the output. As many zeros stand before p as are counted, or more, so where
// no byte of the 64 is 03 or less behind two zeros of s they are copied as they are.
fn put64(s: &[u8], p: usize, out: &mut [u8], at: usize) -> usize
    requires le_p { (2 ≤ p) × (p + 64 ≤ length s.now) }
    requires le_at { 2 ≤ at }
    requires p_in_bounds { at + length (esc_from (counted out.old at) (part s.now p 64)) ≤ length out.old }
    requires at_bound { counted out.old at ≤ counted s.now p }
    ensures { Put out.old at (part s.now p 64) out.new result }
{
    if calm::calm(s, p, 64) {
        rows::copy_fixed::<64>(s, p, out, at);
        return at + 64;
    }
    let z = calm::zeros_before(out, at);
    if z > 0 && calm::void(s, p, 64) {
        let one = z == 1;
        let pairs = if one { BEHIND_ONE } else { BEHIND_TWO };
        return put_zeros(pairs, out, at);
    }
    put::put_bytes(s, p, 64, out, at)
}

// Writes n bytes of payload, from the place p of s on, 64 at a time and the last ones byte by byte, on the terms of put64.
fn put_chunks(s: &[u8], p: usize, n: usize, out: &mut [u8], at: usize) -> usize
    requires le_p { (2 ≤ p) × (p + n ≤ length s.now) }
    requires le_at { 2 ≤ at }
    requires n_in_bounds { at + length (esc_from (counted out.old at) (part s.now p n)) ≤ length out.old }
    requires at_bound { counted out.old at ≤ counted s.now p }
    ensures { Put out.old at (part s.now p n) out.new result }
{
    let whole = n / 64;
    let mut a = at;
    for i in 0..whole {
        a = put64(s, p + 64 * i, out, a);
    }
    let k = 64 * whole;
    put::put_bytes(s, p + k, n - k, out, a)
}

// Writes n bytes of payload, from the place p of s on, at the place `at` of the output, and answers the place behind them.
pub fn put_slice(s: &[u8], p: usize, n: usize, out: &mut [u8], at: usize) -> usize
    requires n_in_bounds { p + n ≤ length s.now }
    requires n_in_bounds_2 { at + length (esc_from (counted out.old at) (part s.now p n)) ≤ length out.old }
    ensures { Put out.old at (part s.now p n) out.new result }
{
    if n < 66 {
        return put::put_bytes(s, p, n, out, at);
    }
    let a = put::put_bytes(s, p, 2, out, at);
    put_chunks(s, p + 2, n - 2, out, a)
}

// Escapes the n bytes of payload that stand in the output as they are, from the place `at` on, where they stand, and answers the place behind them. Where one
// of them wants 03, they are written again from a copy. No heap: the copy is of 1040 bytes, a kilobyte of samples
// with the heads of their macroblocks.
pub fn mend(out: &mut [u8], at: usize, n: usize) -> usize
    requires le_at { 2 ≤ at }
    requires n_bound { n ≤ 1040 }
    requires n_in_bounds { at + n ≤ length out.old }
    requires n_in_bounds_2 { at + length (esc_from (counted out.old at) (part out.old at n)) ≤ length out.old }
    ensures { Put out.old at (part out.old at n) out.new result }
{
    if calm::calm(out, at, n) {
        return at + n;
    }
    let mut plain = [0u8; 1040];
    rows::copy(out, at, n, &mut plain, 0);
    put_slice(&plain, 0, n, out, at)
}
