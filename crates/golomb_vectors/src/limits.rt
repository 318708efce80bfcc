// The limits: the least and the largest numbers, numbers without a code, leading zeros, buffers without room, and plain bits. The
// refusals are 20 (no code exists), 21 (no room) and 22 (no whole code stands there).
use crate::code::{BITS, BYTES, Number, is_unread, refuse};
use crate::list::judge_text;
use golomb::WriteError;
use tally::Tally;

// The least and the largest numbers.
pub fn numbers() -> Tally {
    judge_text(
        b"ue 0 1\n\
        ue 1 010\n\
        ue 2147483647 000000000000000000000000000000010000000000000000000000000000000\n\
        ue 4294967294 000000000000000000000000000000011111111111111111111111111111111\n\
        se -2147483647 000000000000000000000000000000011111111111111111111111111111111\n\
        se 2147483647 000000000000000000000000000000011111111111111111111111111111110\n",
    )
}

// The number above the largest unsigned one, and the number below the least signed one: they are refused with 20, where there is room, and before 21,
// where there is none.
pub fn without_code() -> Tally {
    let mut tally = Tally::default();
    for x in [Number::Ue(u32::MAX), Number::Se(i32::MIN)] {
        for (bytes, place) in [(BYTES, 11), (BYTES, BITS), (BYTES, usize::MAX), (0, 0)] {
            refuse(&mut tally, bytes, place, x, WriteError::NoCode);
        }
    }
    tally
}

// 32 zeros before a 1, with ones enough behind it: all 32 are refused, and from the second bit on 31 are read.
pub fn leading_zeros() -> Tally {
    let payload = b"\x00\x00\x00\x00\xFF\xFF\xFF\xFF\xFF\xFF\xFF\xFF";
    let mut tally = Tally::default();
    tally.count(is_unread(payload, 0));
    tally.count(Number::Ue(4294967294).is_read(payload, 1, 64));
    tally.count(Number::Se(-2147483647).is_read(payload, 1, 64));
    tally.count(is_unread(&[0u8; 16], 0));
    tally
}

// Where no bit has room, at `place` of the payload, each call refuses: the shortest code and the longest, one bit and 64.
fn no_room(tally: &mut Tally, payload: &[u8], place: usize) {
    for x in [Number::Ue(0), Number::Se(-2147483647)] {
        refuse(tally, payload.len(), place, x, WriteError::NoRoom);
    }
    tally.count(is_unread(payload, place));
    for n in [1, 64] {
        tally.count(golomb::read_u(payload, place, n).is_none());
    }
}

// An empty buffer.
pub fn empty() -> Tally {
    let mut tally = Tally::default();
    no_room(&mut tally, b"", 0);
    tally
}

// The largest place, and the largest that 64 bits can be added to.
pub fn largest_places() -> Tally {
    let mut tally = Tally::default();
    for place in [usize::MAX, usize::MAX - 64] {
        no_room(&mut tally, &[255u8; 16], place);
    }
    tally
}

// Plain bits: none, some, 64 of them, to the buffer's end and a bit further, and 65.
pub fn plain_bits() -> Tally {
    let s = b"\xA5\x0F\x96\xC3\x5A\xF0\x69\x3C\xE1";
    let mut tally = Tally::default();
    for (place, n, read) in [
        (72, 0, Some((0, 72))),
        (6, 5, Some((8, 11))),
        (8, 64, Some((0x0F96C35AF0693CE1, 72))),
        (9, 64, None),
        (0, 65, None),
    ] {
        tally.count(golomb::read_u(s, place, n) == read);
    }
    tally
}
