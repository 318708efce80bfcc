// What no escape has: three bytes 00 00 00, 00 00 01 or 00 00 02, and a byte 04 or more behind 00 00 03. Unescaping refuses it with 12.
use crate::pair::{judge_unescape, refuse};
use tally::Tally;

// The faults alone.
pub fn alone() -> Tally {
    let mut tally = Tally::default();
    for last in [0, 1, 2] {
        refuse(&mut tally, &[0, 0, last]);
    }
    refuse(&mut tally, b"\x00\x00\x03\x04");
    tally
}

// The faults at each place of 200 bytes.
pub fn around() -> Tally {
    let mut tally = Tally::default();
    for (c, d) in [(0, 255), (1, 255), (2, 255), (3, 4), (3, 255)] {
        for place in 0..197 {
            let mut input = [255u8; 200];
            input[place..place + 4].copy_from_slice(&[0, 0, c, d]);
            refuse(&mut tally, &input);
        }
    }
    tally
}

// A byte 03 behind two zeros at the end is an inserted one.
pub fn at_end() -> Tally {
    let mut tally = Tally::default();
    judge_unescape(&mut tally, b"\x00\x00\x03", b"\x00\x00");
    judge_unescape(&mut tally, b"\x68\x00\x00\x03", b"\x68\x00\x00");
    tally
}
