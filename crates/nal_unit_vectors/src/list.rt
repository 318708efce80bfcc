// A list of escapes, a line for each: the payload and its escape in hex digits, as `68000000 6800000300`; `-` is no bytes.
use crate::pair::{BYTES, judge};
use std::alloc::{AllocError, Global};
use std::io;
use std::io::Read;
use tally::Tally;

// The length that a list on standard input stays below.
const LIST: usize = 300000;

// The two words of a line; nothing where it has another number of them.
fn words(line: &[u8]) -> Option<(&[u8], &[u8])> {
    let mut words = line.split(|b| *b == b' ');
    let pair = (words.next()?, words.next()?);
    if words.next().is_some() {
        return None;
    }
    Some(pair)
}

// Judges a line; a malformed word is wrong.
fn judge_line(alloc: Global, tally: &mut Tally, line: &[u8]) -> Result<(), AllocError> {
    let Some((first, second)) = words(line) else {
        tally.count(false);
        return Ok(());
    };
    match (
        hex_words::decode(alloc, first, BYTES)?,
        hex_words::decode(alloc, second, BYTES)?,
    ) {
        (Some(payload), Some(escape)) => judge(tally, &payload, &escape),
        _ => tally.count(false),
    }
    Ok(())
}

// Judges all lines of a text. What stands behind the last line end is malformed.
fn judge_text(alloc: Global, text: &[u8]) -> Result<Tally, AllocError> {
    let mut tally = Tally::default();
    for line in text.split_inclusive(|b| *b == b'\n') {
        match line.strip_suffix(b"\n") {
            Some(line) => judge_line(alloc, &mut tally, line)?,
            None => tally.count(false),
        }
    }
    Ok(tally)
}

// Judges the list on standard input; an empty one is wrong, and so is one that is too long.
// Each list program has its own limit, its own rule for an empty list and its own judge: one function for all would be no plainer than these lines.
pub fn judge_input(rt: &(impl Input + AllocGlobal)) -> io::Result<Tally> {
    let mut text = Vec::new(rt.alloc());
    rt.reader().take(LIST as u64).read_to_end(&mut text)?;
    if !text.is_empty() && text.len() < LIST {
        return Ok(judge_text(rt.alloc(), &text)?);
    }
    Ok(Tally {
        compared: 1,
        wrong: 1,
    })
}
