// A list of codes, a line for each: its kind, the number and its code, as `ue 25 000011010` and `se -12 000011001`.
use crate::code::{Number, judge};
use std::io;
use std::io::Read;
use tally::Tally;

// The length that a list on standard input stays below.
const LIST: usize = 400000;

// The number of a row of digits; nothing where it is none. The digits behind one that makes it larger than any u32 don't count.
fn size(digits: &[u8]) -> Option<u64> {
    if digits.is_empty() || !digits.iter().all(u8::is_ascii_digit) {
        return None;
    }
    Some(
        digits.iter().fold(0, |size: u64, b| {
            if u64::from(u32::MAX) < size {
                size
            } else {
                10 * size + u64::from(b.wrapping_sub(b'0'))
            }
        }),
    )
}

// The unsigned number of that sign and size; one without a code where it is out of range, so that such a line is judged and found wrong, as it always was.
fn unsigned(minus: bool, size: u64) -> Number {
    if minus {
        return Number::Ue(u32::MAX);
    }
    Number::Ue(u32::try_from(size).unwrap_or(u32::MAX))
}

// The signed number of that sign and size; one without a code where it is out of range.
fn signed(minus: bool, size: u64) -> Number {
    Number::Se(match i32::try_from(size) {
        Ok(x) => if minus { x.wrapping_neg() } else { x },
        Err(_) => i32::MIN,
    })
}

// What a line says: a number, and the digits of its code.
#[derive(Clone, Copy, Debug, PartialEq, Eq)]
struct Line<'a> {
    x: Number,
    size: u64,
    code: &'a [u8],
}

// Reads a line; nothing where it is malformed.
fn parse(line: &[u8]) -> Option<Line<'_>> {
    let mut words = line.split(|b| *b == b' ');
    let kind = words.next()?;
    let number = words.next()?;
    let code = words.next()?;
    if words.next().is_some() || !code.iter().all(|b| matches!(b, b'0' | b'1')) {
        return None;
    }
    let (minus, digits) = match number.strip_prefix(b"-") {
        Some(digits) => (true, digits),
        None => (false, number),
    };
    let size = size(digits)?;
    let x = if kind == b"ue".as_slice() {
        unsigned(minus, size)
    } else if kind == b"se".as_slice() {
        signed(minus, size)
    } else {
        return None;
    };
    Some(Line { x, size, code })
}

// Judges all lines of a text, each code at a place within the second byte. A malformed line is wrong, and so is what stands behind the last line end.
pub fn judge_text(text: &[u8]) -> Tally {
    let mut tally = Tally::default();
    for line in text.split_inclusive(|b| *b == b'\n') {
        match line.strip_suffix(b"\n").and_then(parse) {
            Some(line) => judge(&mut tally, 9 + (line.size % 7) as usize, line.x, line.code),
            None => tally.count(false),
        }
    }
    tally
}

// Judges the list on standard input; one that is too long is wrong.
// Each list program has its own limit, its own rule for an empty list and its own judge: one function for all would be no plainer than these lines.
pub fn judge_input(rt: &(impl Input + Alloc)) -> io::Result<Tally> {
    let mut text = Vec::new(rt.alloc());
    rt.reader().take(LIST as u64).read_to_end(&mut text)?;
    if text.len() < LIST {
        return Ok(judge_text(&text));
    }
    Ok(Tally {
        compared: 1,
        wrong: 1,
    })
}
