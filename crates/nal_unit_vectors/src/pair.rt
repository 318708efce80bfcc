// A payload and its escape: each made of the other, in buffers of several lengths.
use nal_unit::unescape::{UnescapeError, unescape, unescaped_len};
use nal_unit::{escaped_len, rbsp_to_ebsp};
use tally::Tally;

// The bytes of a buffer that is written into.
pub const BYTES: usize = 512;

// Makes it in the first `room` of 512 bytes FF. Compares the answer, the length written or the refusal, and every byte of the buffer: those wanted, and FF
// behind them.
fn judge_in<F: Fn(&mut [u8]) -> Result<usize, UnescapeError>>(
    tally: &mut Tally,
    make: F,
    room: usize,
    wanted: Result<&[u8], UnescapeError>,
)
    requires { F.IsAlwaysCallable make }
{
    let mut buffer = [255u8; BYTES];
    let answer = make(&mut buffer[..room.min(BYTES)]);
    tally.count(answer == wanted.map(|bytes| bytes.len()));
    let behind = buffer.strip_prefix(wanted.unwrap_or(b""));
    tally.count(behind.is_some_and(|rest| rest.iter().all(|b| *b == 255)));
}

// All that is compared of one way: the length told; what is made where there is just the room, and where there is more; and a
// byte short, the refusal with 21.
fn judge_way<F: Fn(&mut [u8]) -> Result<usize, UnescapeError>>(
    tally: &mut Tally,
    length: usize,
    make: F,
    wanted: &[u8],
)
    requires { F.IsAlwaysCallable make }
{
    let n = wanted.len();
    tally.count(length == n);
    judge_in(tally, &make, n, Ok(wanted));
    judge_in(tally, &make, BYTES, Ok(wanted));
    if let Some(room) = n.checked_sub(1) {
        judge_in(tally, &make, room, Err(UnescapeError::NoRoom));
    }
}

// Has an input refused with 12, where there is room, and before 21, where there is none.
pub fn refuse(tally: &mut Tally, input: &[u8]) {
    for room in [BYTES, 0] {
        judge_in(
            tally,
            |out| unescape(input, out),
            room,
            Err(UnescapeError::Fault),
        );
    }
}

// The payload made of its escape.
pub fn judge_unescape(tally: &mut Tally, escape: &[u8], payload: &[u8]) {
    judge_way(
        tally,
        unescaped_len(escape),
        |out| unescape(escape, out),
        payload,
    );
}

// Both ways.
pub fn judge(tally: &mut Tally, payload: &[u8], escape: &[u8]) {
    let make = |out: &mut [u8]| rbsp_to_ebsp(payload, out).ok_or(UnescapeError::NoRoom);
    judge_way(tally, escaped_len(payload), make, escape);
    judge_unescape(tally, escape, payload);
}
