// Unescaping (ITU-T H.264 7.3.1): the payload of lent escaped bytes. The first two are payload whatever they are; of each behind them the two before it tell
// whether it was inserted (taking.rt). Where nothing was inserted the payload goes 64 bytes at a time, pairs of zeros go at once, others byte by byte.
// A slice and a place in it stay two parameters: whether a byte was inserted is seen from the two before it.
ghost use Rattle.std.specs.Prelude.{◌≡◌, ◌++◌, ◌+◌, ◌<◌, ◌≤◌, leb, length, drop};
ghost use Rattle.nal_unit.specs.Answers.{unescape_of, unescaped_out};
ghost use Rattle.nal_unit.specs.Unescape.{un};
ghost use Rattle.nal_unit.specs.Kept.{kept};
ghost use Rattle.nal_unit.specs.UnescapeCode.{Unescapes};

use crate::{rows, scan, taking};

// Why nothing is unescaped, and nothing changed: the bytes have a fault, or their payload has no room.
#[derive(Clone, Copy, Debug, PartialEq, Eq)]
pub enum UnescapeError {
    Fault,
    NoRoom,
}

// The length of the payload of `ebsp`.
pub fn unescaped_len(ebsp: &[u8]) -> usize
    ensures { result ≡ length (un ebsp.now) }
{
    if ebsp.len() < 2 {
        return ebsp.len();
    }
    ebsp.len() - taking::count_inserted(ebsp, 2, ebsp.len())
}

// Whether the payload of `ebsp` has at most `room` bytes.
fn has_room(ebsp: &[u8], room: usize) -> bool
    ensures { result ≡ leb (length (un ebsp.now)) room }
{
    if ebsp.len() <= room {
        return true;
    }
    unescaped_len(ebsp) <= room
}

// Writes the byte at `p` at the place `a`, if it is of the payload, and answers the place behind.
fn put_byte(s: &[u8], p: usize, out: &mut [u8], a: usize) -> usize
    requires le_p { (2 ≤ p) × (p < length s.now) }
    requires p_in_bounds { a + length (kept s.now p (p + 1)) ≤ length out.old }
    ensures { Unescapes s.now p (p + 1) out.old a out.new result }
{
    if taking::inserted_at(s, p) {
        return a;
    }
    out[a] = s[p];
    a + 1
}

// Writes the payload of the bytes from `p` up to `e` at the place `a`, byte by byte, and answers the place behind. They are counted from 0: a loop over p..e was
// compiled to one byte a turn, one over 0..n to two, which is faster where inserted bytes stand close (docs/LOOK-BACK.md, d).
fn put_plain(s: &[u8], p: usize, e: usize, out: &mut [u8], a: usize) -> usize
    requires le_p { (2 ≤ p) × (p ≤ e) × (e ≤ length s.now) }
    requires e_in_bounds { a + length (kept s.now p e) ≤ length out.old }
    ensures { Unescapes s.now p e out.old a out.new result }
{
    let mut b = a;
    for k in 0..e - p {
        b = put_byte(s, p + k, out, b);
    }
    b
}

// The same of the 64 bytes from `p` on: at once where nothing was inserted, and 63 of them at once where they are pairs of zeros.
fn put64(s: &[u8], p: usize, out: &mut [u8], a: usize) -> usize
    requires le_p { (2 ≤ p) × (p + 64 ≤ length s.now) }
    requires p_in_bounds { a + length (kept s.now p (p + 64)) ≤ length out.old }
    ensures { Unescapes s.now p (p + 64) out.old a out.new result }
{
    if taking::calm(s, p, 64) {
        rows::copy_fixed::<64>(s, p, out, a);
        return a + 64;
    }
    if taking::pairs(s, p, 21) {
        taking::write_zeros(out, a, 42);
        return put_byte(s, p + 63, out, a + 42);
    }
    put_plain(s, p, p + 64, out, a)
}

// The same of all bytes from `p` on.
fn put_rest(s: &[u8], p: usize, out: &mut [u8], a: usize) -> usize
    requires le_p { (2 ≤ p) × (p ≤ length s.now) }
    requires s_in_bounds { a + length (kept s.now p (length s.now)) ≤ length out.old }
    ensures { Unescapes s.now p (length s.now) out.old a out.new result }
{
    let blocks = (s.len() - p) / 64;
    let mut b = a;
    for k in 0..blocks {
        b = put64(s, p + 64 * k, out, b);
    }
    put_plain(s, p + 64 * blocks, s.len(), out, b)
}

// Writes the payload of `s` from the first byte of `out` on, which has room for it, and answers its length.
fn put_payload(s: &[u8], out: &mut [u8]) -> usize
    requires { length (un s.now) ≤ length out.old }
    ensures { (result ≡ length (un s.now)) × (out.new ≡ un s.now ++ drop (length (un s.now)) out.old) }
{
    if s.len() < 2 {
        rows::copy(s, 0, s.len(), out, 0);
        return s.len();
    }
    rows::copy(s, 0, 2, out, 0);
    put_rest(s, 2, out, 2)
}

// Writes the payload of the escaped bytes `ebsp` from the first byte of `out` on and answers its length; bytes behind it stay.
pub fn unescape(ebsp: &[u8], out: &mut [u8]) -> Result<usize, UnescapeError>
    ensures answer { result ≡ unescape_of ebsp.now out.old }
    ensures bytes { out.new ≡ unescaped_out (unescape_of ebsp.now out.old) ebsp.now out.old }
{
    if scan::first_fault(ebsp, 0) < ebsp.len() {
        return Err(UnescapeError::Fault);
    }
    if !has_room(ebsp, out.len()) {
        return Err(UnescapeError::NoRoom);
    }
    Ok(put_payload(ebsp, out))
}
