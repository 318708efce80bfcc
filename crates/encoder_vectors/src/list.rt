// Lists of calls and their answers, a line for each (line.rt).
use crate::call::{Call, Host, Output};
use crate::line::{Answer, LineError, read_answer, read_call};
use crate::plain::bytes_of;
use crate::sum::sum_of;
use std::alloc::{AllocError, Global};
use std::io::Read;
use std::{io, str};
use tally::Tally;

// The most bytes that a line gives.
const GIVEN: usize = 2000;

// The most bytes of a sequence parameter set.
const SET: usize = 32;

// The most macroblocks that plain.rt writes.
const MACROBLOCKS: usize = 1024;

// The length that a list on standard input stays below.
const LIST: usize = 300000;

impl Host {
    // The bytes of a word, `most` at most.
    fn decode(&self, word: &str, most: usize) -> Result<Vec<u8>, LineError> {
        hex_words::decode(self.alloc, word.as_bytes(), most)?.ok_or(LineError::Malformed)
    }

    // Judges an accepted call by the sum, and by the bytes where they are given.
    fn judge_bytes(
        &mut self,
        call: Call,
        length: usize,
        sum: u64,
        word: &str,
    ) -> Result<(), LineError> {
        let bytes = self.decode(word, GIVEN)?;
        if !bytes.is_empty() && bytes.len() != length {
            return Err(LineError::Malformed);
        }
        let output = Output {
            length,
            sum,
            bytes: &bytes,
        };
        self.judge(call, Ok(output))
    }

    // Judges an accepted call by what plain.rt writes.
    fn judge_plain(
        &mut self,
        call: Call,
        length: usize,
        count: usize,
        sps: &str,
    ) -> Result<(), LineError> {
        let sps = self.decode(sps, SET)?;
        if MACROBLOCKS < count {
            return Err(LineError::Malformed);
        }
        let bytes = bytes_of(self.alloc, call, &sps, count)?;
        if bytes.len() != length {
            return Err(LineError::Malformed);
        }
        let output = Output {
            length,
            sum: sum_of(&bytes),
            bytes: &bytes,
        };
        self.judge(call, Ok(output))
    }

    // Judges a line.
    fn judge_line(&mut self, line: &[u8]) -> Result<(), LineError> {
        let line = str::from_utf8(line).map_err(|_| LineError::Malformed)?;
        let mut words = line.split(' ');
        let call = read_call(&mut words).ok_or(LineError::Malformed)?;
        match read_answer(&mut words).ok_or(LineError::Malformed)? {
            Answer::Refused(refusal) => self.judge(call, Err(refusal)),
            Answer::Bytes { length, sum, bytes } => self.judge_bytes(call, length, sum, bytes),
            Answer::Plain { length, count, sps } => self.judge_plain(call, length, count, sps),
        }
    }

    // Judges a piece of a text, a line with its line end. A malformed line counts as a comparison that found a difference, and so does what stands behind the
    // last line end.
    fn judge_piece(&mut self, piece: &[u8]) -> Result<(), AllocError> {
        let judged = match piece.strip_suffix(b"\n") {
            Some(line) => self.judge_line(line),
            None => Err(LineError::Malformed),
        };
        match judged {
            Err(LineError::Malformed) => self.tally.count(false),
            Err(LineError::Memory(e)) => return Err(e),
            Ok(()) => {}
        }
        Ok(())
    }
}

// Judges all lines of a text, each in the session that those before it left.
pub fn judge_text(alloc: Global, text: &[u8]) -> Result<Tally, AllocError> {
    let mut host = Host::new(alloc);
    for piece in text.split_inclusive(|b| *b == b'\n') {
        host.judge_piece(piece)?;
    }
    Ok(host.tally)
}

// Judges the list on standard input. An empty one is malformed, and so is one of LIST bytes or more. Each list program has its own limit and its own judge: one
// function for all would be no plainer than these lines.
pub fn judge_input(rt: &(impl Input + AllocGlobal)) -> io::Result<Tally> {
    let mut text = Vec::new(rt.alloc());
    rt.reader().take(LIST as u64).read_to_end(&mut text)?;
    if text.is_empty() || text.len() == LIST {
        let mut tally = Tally::default();
        tally.count(false);
        return Ok(tally);
    }
    Ok(judge_text(rt.alloc(), &text)?)
}
