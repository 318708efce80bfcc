// A unit of the byte stream written at a place of the output (nal_unit.rs, to_annex_b_data; 7.3.1, B.1.1): start code, header byte, escaped payload. A payload in
// pieces is opened by open_unit and written piece by piece by fast::put_slice: the count goes on from the bytes that stand there.
ghost use Rattle.std.specs.Prelude.{◌≡◌, ◌+◌, ◌<◌, ◌≤◌, length};
ghost use Rattle.lists.specs.Fill.{splice};
ghost use Rattle.nal_unit.specs.UnitCode.{opening, framed, Framed};

use crate::{fast, rows};

// Writes the start code 00 00 00 01 and the header byte at the place `at`, and answers the place behind them.
pub fn open_unit(out: &mut [u8], at: usize, header: u8) -> usize
    requires { at + 5 ≤ length out.old }
    ensures value { result ≡ at + 5 }
    ensures out_after { out.new ≡ splice out.old at (opening header) }
{
    rows::copy(b"\0\0\0\x01", 0, 4, out, at);
    out[at + 4] = header;
    at + 5
}

// Writes a whole unit at the place `at`, and answers the place behind it.
pub fn put_unit(header: u8, payload: &[u8], out: &mut [u8], at: usize) -> usize
    requires header_nonzero { 0 < header }
    requires payload_in_bounds { at + length (framed header payload.now) ≤ length out.old }
    ensures { Framed out.old at header payload.now out.new result }
{
    let a = open_unit(out, at, header);
    fast::put_slice(payload, 0, payload.len(), out, a)
}
