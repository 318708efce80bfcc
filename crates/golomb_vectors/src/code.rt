// One code, written into a buffer and read back. What is wanted of it is given as a text of the digits 0 and 1.
use crate::through;
use golomb::WriteError;
use tally::Tally;

// The bytes of a buffer that codes are written into.
pub const BYTES: usize = 16;

// Its bits.
pub const BITS: usize = 8 * BYTES;

// A number with the kind of its code.
#[derive(Clone, Copy, Debug, PartialEq, Eq)]
pub enum Number {
    Ue(u32),
    Se(i32),
}

impl Number {
    // Writes its code, and answers the place behind it.
    fn write(self, buffer: &mut [u8], place: usize) -> Result<usize, WriteError> {
        match self {
            Number::Ue(x) => golomb::write_ue(buffer, place, x),
            Number::Se(x) => golomb::write_se(buffer, place, x),
        }
    }

    // Whether reading a code of its kind answers it, and the place `behind`.
    pub fn is_read(self, payload: &[u8], place: usize, behind: usize) -> bool {
        match self {
            Number::Ue(x) => through::ue(payload, place) == Some((x, behind)),
            Number::Se(x) => through::se(payload, place) == Some((x, behind)),
        }
    }
}

// Whether reading is refused, of both kinds.
pub fn is_unread(payload: &[u8], place: usize) -> bool {
    through::ue(payload, place).is_none() && through::se(payload, place).is_none()
}

// The digit of the bit of `b` that is at the place `p` of a buffer.
fn digit(b: u8, p: usize) -> u8 {
    if (b >> (7 - p % 8)) % 2 == 0 {
        b'0'
    } else {
        b'1'
    }
}

// The digit that is wanted at the place `p`: the code's own, or the one that was there.
fn digit_wanted(fill: u8, place: usize, code: &[u8], p: usize) -> u8 {
    match p.checked_sub(place).and_then(|k| code.get(k)) {
        Some(d) => *d,
        None => digit(fill, p),
    }
}

// Whether the buffer has `code` at `place`, and every other bit as in bytes `fill`.
fn holds(buffer: &[u8; BYTES], fill: u8, place: usize, code: &[u8]) -> bool {
    (0..BITS).all(|p| digit(buffer[p / 8], p) == digit_wanted(fill, place, code, p))
}

// Writes the code of `x` at `place` of bytes `fill`, and reads it. Compares the place behind it, every bit of the buffer, and
// the number and place that are read.
fn exchange(tally: &mut Tally, fill: u8, place: usize, x: Number, code: &[u8]) {
    let mut buffer = [fill; BYTES];
    let behind = place.wrapping_add(code.len());
    tally.count(x.write(&mut buffer, place) == Ok(behind));
    tally.count(holds(&buffer, fill, place, code));
    tally.count(x.is_read(&buffer, place, behind));
}

// Has the code of `x` refused at `place` of the first `bytes` bytes, in bytes FF and in bytes 00. Compares the refusal, and every byte with what it
// was.
pub fn refuse(tally: &mut Tally, bytes: usize, place: usize, x: Number, error: WriteError) {
    for fill in [255, 0] {
        let mut buffer = [fill; BYTES];
        let room = bytes.min(BYTES);
        tally.count(x.write(&mut buffer[..room], place) == Err(error));
        tally.count(holds(&buffer, fill, 0, b""));
    }
}

// Reads the code of `x`, which ends a bit behind the first 16 of 17 bytes, and has it refused in the 16.
fn cut(tally: &mut Tally, place: usize, x: Number) {
    let mut buffer = [255u8; BYTES + 1];
    tally.count(x.write(&mut buffer, place) == Ok(BITS + 1));
    tally.count(x.is_read(&buffer, place, BITS + 1));
    tally.count(is_unread(&buffer[..BYTES], place));
}

// All that is compared of one code: in bytes FF and in bytes 00, at `place` and at the buffer's end; and a bit behind that, where
// writing is refused for the room and reading for the rest of the code.
pub fn judge(tally: &mut Tally, place: usize, x: Number, code: &[u8]) {
    let Some(end) = BITS.checked_sub(code.len()) else {
        tally.count(false);
        return;
    };
    for start in [place, end] {
        exchange(tally, 255, start, x, code);
        exchange(tally, 0, start, x, code);
    }
    refuse(tally, BYTES, end + 1, x, WriteError::NoRoom);
    cut(tally, end + 1, x);
}
