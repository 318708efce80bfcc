// The call that a line begins with:
//
//     start colour any 8 8 8 18 34 32 1536 16 384 16 384 7
//
// is a start call with a colour picture. Its content; the depths of Y, Cb and Cr; width and height; the stride and the bytes of Y, of Cb
// and of Cr; the seed. Behind it stands one of
//
//     7
//     0 414 9090160299649211884 000000016742000a..
//     0 414 plain 1 6742000afb936020
//
// that is the number of a refusal; or 0, the length written, the sum of the bytes, and the bytes themselves or `-`; or 0, the length, and how
// many macroblocks and which sequence parameter set plain.rt writes, `-` for none.
use crate::call::{Call, Entry};
use crate::samples::Content;
use crate::words::{number, short};
use std::alloc::AllocError;
use std::str::Split;
use ycbcr_image::{BitDepth, DataPlane, Kind, Refusal, YCbCrImage};

// Why a line was not judged.
#[derive(Clone, Copy, Debug, PartialEq, Eq)]
pub enum LineError {
    Malformed,
    Memory(AllocError),
}

impl From<AllocError> for LineError {
    fn from(e: AllocError) -> LineError {
        LineError::Memory(e)
    }
}

// The answer to a call, as a line gives it.
#[derive(Clone, Copy, Debug, PartialEq, Eq)]
pub enum Answer<'a> {
    Refused(Refusal),
    Bytes {
        length: usize,
        sum: u64,
        bytes: &'a str,
    },
    Plain {
        length: usize,
        count: usize,
        sps: &'a str,
    },
}

// The entry that a word names.
fn entry(word: &str) -> Option<Entry> {
    match word {
        "start" => Some(Entry::Start),
        "next" => Some(Entry::Next),
        _ => None,
    }
}

// The kind that a word names.
fn kind(word: &str) -> Option<Kind> {
    match word {
        "mono" => Some(Kind::Mono),
        "colour" => Some(Kind::Colour),
        _ => None,
    }
}

// The content that a word names.
fn content(word: &str) -> Option<Content> {
    match word {
        "all" => Some(Content::All),
        "any" => Some(Content::Any),
        "none" => Some(Content::None),
        "few" => Some(Content::Few),
        "many" => Some(Content::Many),
        _ => None,
    }
}

// The depth that a word is.
fn depth(word: &str) -> Option<BitDepth> {
    match word {
        "8" => Some(BitDepth::Depth8),
        "12" => Some(BitDepth::Depth12),
        _ => None,
    }
}

// The refusal that the library gives this number.
fn refusal(number: u32) -> Option<Refusal> {
    let all = [
        Refusal::Size,
        Refusal::Depths,
        Refusal::Colour12Width,
        Refusal::OddWidth,
        Refusal::OddHeight,
        Refusal::OtherThanSession,
        Refusal::Stride,
        Refusal::Rows,
    ];
    all.into_iter().find(|r| r.number() == number)
}

// A plane, of the next two words.
fn plane(words: &mut Split<'_, char>, depth: BitDepth) -> Option<DataPlane> {
    let stride = number(words.next()?)? as usize;
    let len = number(words.next()?)? as usize;
    Some(DataPlane { len, stride, depth })
}

// Reads the words of a call.
pub fn read_call(words: &mut Split<'_, char>) -> Option<Call> {
    let entry = entry(words.next()?)?;
    let kind = kind(words.next()?)?;
    let content = content(words.next()?)?;
    let y_depth = depth(words.next()?)?;
    let cb_depth = depth(words.next()?)?;
    let cr_depth = depth(words.next()?)?;
    let width = short(words.next()?)?;
    let height = short(words.next()?)?;
    let y = plane(words, y_depth)?;
    let cb = plane(words, cb_depth)?;
    let cr = plane(words, cr_depth)?;
    let seed = number(words.next()?)?;
    let image = YCbCrImage {
        width,
        height,
        kind,
        y,
        cb,
        cr,
    };
    Some(Call {
        entry,
        image,
        content,
        seed,
    })
}

// Reads the words of an accepted call's answer, behind the 0.
fn read_accepted<'a>(words: &mut Split<'a, char>) -> Option<Answer<'a>> {
    let length = number(words.next()?)? as usize;
    let sum = words.next()?;
    let word = words.next()?;
    let Some(sps) = words.next() else {
        let sum = number(sum)?;
        return Some(Answer::Bytes {
            length,
            sum,
            bytes: word,
        });
    };
    if sum != "plain" {
        return None;
    }
    let count = number(word)? as usize;
    Some(Answer::Plain { length, count, sps })
}

// Reads the words of an answer, the last of a line.
pub fn read_answer<'a>(words: &mut Split<'a, char>) -> Option<Answer<'a>> {
    let number = short(words.next()?)?;
    let answer = if number == 0 {
        read_accepted(words)?
    } else {
        Answer::Refused(refusal(number)?)
    };
    if words.next().is_some() {
        return None;
    }
    Some(answer)
}
