// Units of the byte stream (nal_unit.rs; ITU-T H.264 7.3.1, 7.4.1 and Annex B): escaping and unescaping, framing, start codes, units.
#![tactic(auto)]

pub mod calm;
pub mod count;
pub mod fast;
pub mod put;
pub mod rows;
pub mod scan;
pub mod taking;
pub mod unescape;
pub mod unit;

ghost use Rattle.std.specs.Prelude.{◌≡◌, leb, length};
ghost use Rattle.nal_unit.specs.Escape.{esc};
ghost use Rattle.nal_unit.specs.Answers.{escaped_of, escaped_out};

// The length of a payload's escape.
pub fn escaped_len(payload: &[u8]) -> usize
    ensures { result ≡ length (esc payload.now) }
{
    count::count_slice(payload, 0, payload.len(), 0).n
}

// Whether a payload's escape has at most `room` bytes. It has at most half as many again as the payload, so where there is that much room nothing is counted.
fn has_room(payload: &[u8], room: usize) -> bool
    ensures { result ≡ leb (length (esc payload.now)) room }
{
    let n = payload.len();
    if room < n {
        return false;
    }
    if room - n >= n - n / 2 {
        return true;
    }
    escaped_len(payload) <= room
}

// Escapes a payload (RBSP) into the output (EBSP), from its first byte on, and answers the length written; None where there is no room, and nothing changed.
pub fn rbsp_to_ebsp(rbsp: &[u8], nal: &mut [u8]) -> Option<usize>
    ensures value { result ≡ escaped_of rbsp.now nal.old }
    ensures nal_after { nal.new ≡ escaped_out rbsp.now nal.old }
{
    if !has_room(rbsp, nal.len()) {
        return None;
    }
    Some(fast::put_slice(rbsp, 0, rbsp.len(), nal, 0))
}
