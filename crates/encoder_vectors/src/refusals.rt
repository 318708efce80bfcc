// Pictures that are refused for their depths, for the session, for their planes, and for two things at once.
use crate::list::judge_text;
use std::alloc::{AllocError, Global};
use tally::Tally;

// Depths that differ, in colour: 2.
pub fn depths(alloc: Global) -> Result<Tally, AllocError> {
    judge_text(
        alloc,
        b"start colour any 8 8 12 16 16 24 384 12 96 12 96 1 2\n\
        start colour any 8 12 8 16 16 24 384 12 96 12 96 1 2\n\
        start colour any 8 12 12 16 16 24 384 12 96 12 96 1 2\n\
        start colour any 12 8 8 16 16 24 384 12 96 12 96 1 2\n\
        start colour any 12 8 12 16 16 24 384 12 96 12 96 1 2\n\
        start colour any 12 12 8 16 16 24 384 12 96 12 96 1 2\n",
    )
}

// Next calls in a session that no call left, and then in those of mono 8, colour 8 and colour 12: they are accepted with the same width, height, kind
// and depth, and refused with 6 with another. A refusal leaves the session, one of a start call too.
pub fn sessions(alloc: Global) -> Result<Tally, AllocError> {
    judge_text(
        alloc,
        b"next mono any 8 8 8 16 16 16 256 0 0 0 0 1 6\n\
        next mono any 8 8 8 0 0 16 256 0 0 0 0 1 1\n\
        start mono all 8 8 8 16 16 16 256 0 0 0 0 16 0 286 plain 1 6764000af3dc9b01\n\
        next mono all 8 8 8 16 16 16 256 0 0 0 0 16 0 266 plain 1 -\n\
        next mono any 8 8 8 17 16 32 512 0 0 0 0 1 6\n\
        next mono any 8 8 8 15 16 16 256 0 0 0 0 1 6\n\
        next mono any 8 8 8 16 17 16 512 0 0 0 0 1 6\n\
        next mono any 8 8 8 16 15 16 256 0 0 0 0 1 6\n\
        next mono any 12 12 12 16 16 24 384 0 0 0 0 1 6\n\
        next colour any 8 8 8 16 16 16 256 8 64 8 64 1 6\n\
        next mono any 8 8 8 16 16 15 256 0 0 0 0 1 7\n\
        next mono any 8 8 8 16 16 16 255 0 0 0 0 1 8\n\
        start colour any 8 8 8 16 16 16 256 8 64 8 63 1 8\n\
        next mono all 8 8 8 16 16 16 256 0 0 0 0 0 0 393 plain 1 -\n\
        start colour all 8 8 8 16 16 16 256 8 64 8 64 16 0 414 plain 1 6742000afb936020\n\
        next colour any 8 8 8 18 16 32 512 16 128 16 128 1 6\n\
        next colour any 8 8 8 16 14 16 256 8 64 8 64 1 6\n\
        next colour any 12 12 12 16 16 24 384 12 96 12 96 1 6\n\
        next mono any 8 8 8 16 16 16 256 8 64 8 64 1 6\n\
        next colour any 8 8 8 16 16 16 256 7 64 8 64 1 7\n\
        next colour any 8 8 8 16 16 16 256 8 64 8 63 1 8\n\
        next colour all 8 8 8 16 16 16 256 8 64 8 64 16 0 394 plain 1 -\n\
        start colour all 12 12 12 16 16 24 384 12 96 12 96 16 0 608 plain 1 67f4000aa294f726c040\n\
        next colour any 8 8 8 16 16 24 384 12 96 12 96 1 6\n\
        next mono any 12 12 12 16 16 24 384 12 96 12 96 1 6\n\
        next colour all 12 12 12 16 16 24 384 12 96 12 96 16 0 586 plain 1 -\n",
    )
}

// Strides a byte short and 0: 7. Planes a byte short, without a byte, without the slack of the last row, and with a stride near the
// largest number: 8.
pub fn planes(alloc: Global) -> Result<Tally, AllocError> {
    judge_text(
        alloc,
        b"start mono any 8 8 8 16 16 15 256 0 0 0 0 1 7\n\
        start mono any 8 8 8 16 16 0 256 0 0 0 0 1 7\n\
        start mono any 8 8 8 16 16 16 255 0 0 0 0 1 8\n\
        start mono any 8 8 8 16 16 16 0 0 0 0 0 1 8\n\
        start mono any 8 8 8 16 16 20 316 0 0 0 0 1 8\n\
        start mono any 8 8 8 16 16 18446744073709551609 400000 0 0 0 0 1 8\n\
        start mono any 8 8 8 17 16 31 512 0 0 0 0 1 7\n\
        start mono any 8 8 8 16 17 16 511 0 0 0 0 1 8\n\
        start mono any 12 12 12 16 16 23 384 0 0 0 0 1 7\n\
        start mono any 12 12 12 16 16 24 383 0 0 0 0 1 8\n\
        start colour any 8 8 8 16 16 15 256 8 64 8 64 1 7\n\
        start colour any 8 8 8 16 16 16 255 8 64 8 64 1 8\n\
        start colour any 8 8 8 16 16 16 256 7 64 8 64 1 7\n\
        start colour any 8 8 8 16 16 16 256 0 64 8 64 1 7\n\
        start colour any 8 8 8 16 16 16 256 8 63 8 64 1 8\n\
        start colour any 8 8 8 16 16 16 256 8 0 8 64 1 8\n\
        start colour any 8 8 8 16 16 16 256 10 78 8 64 1 8\n\
        start colour any 8 8 8 16 16 16 256 8 64 7 64 1 7\n\
        start colour any 8 8 8 16 16 16 256 8 64 0 64 1 7\n\
        start colour any 8 8 8 16 16 16 256 8 64 8 63 1 8\n\
        start colour any 8 8 8 16 16 16 256 8 64 8 0 1 8\n\
        start colour any 8 8 8 16 16 16 256 8 64 18446744073709551609 64 1 8\n\
        start colour any 12 12 12 16 16 23 384 12 96 12 96 1 7\n\
        start colour any 12 12 12 16 16 24 383 12 96 12 96 1 8\n\
        start colour any 12 12 12 16 16 24 384 11 96 12 96 1 7\n\
        start colour any 12 12 12 16 16 24 384 12 95 12 96 1 8\n\
        start colour any 12 12 12 16 16 24 384 12 96 11 96 1 7\n\
        start colour any 12 12 12 16 16 24 384 12 96 12 95 1 8\n",
    )
}

// Two faults each, in the session of colour 8: the first of the table is answered. Of those of planes Y's come first, then Cb's, then Cr's, and 7
// before 8 in each.
pub fn order(alloc: Global) -> Result<Tally, AllocError> {
    judge_text(
        alloc,
        b"start colour all 8 8 8 16 16 16 256 8 64 8 64 16 0 414 plain 1 6742000afb936020\n\
        start colour any 8 12 12 16388 16 16 256 8 64 8 64 1 1\n\
        start colour any 12 12 12 16386 16 24 384 12 96 12 96 1 1\n\
        start colour any 8 8 8 16385 16 16 256 8 64 8 64 1 1\n\
        start colour any 8 8 8 16 16385 16 256 8 64 8 64 1 1\n\
        next colour any 8 8 8 16386 16 16 256 8 64 8 64 1 1\n\
        start mono any 8 8 8 16385 16 16 256 0 0 0 0 1 1\n\
        start colour any 12 8 8 6 16 24 384 12 96 12 96 1 2\n\
        start colour any 8 12 12 15 16 16 256 8 64 8 64 1 2\n\
        next colour any 12 8 8 16 16 24 384 12 96 12 96 1 2\n\
        next colour any 8 8 12 16 16 15 256 8 64 8 64 1 2\n\
        start colour any 12 12 12 5 16 24 384 12 96 12 96 1 3\n\
        start colour any 12 12 12 6 17 24 384 12 96 12 96 1 3\n\
        next colour any 12 12 12 6 16 24 384 12 96 12 96 1 3\n\
        start colour any 8 8 8 15 17 16 256 8 64 8 64 1 4\n\
        next colour any 8 8 8 15 16 16 256 8 64 8 64 1 4\n\
        start mono any 12 12 12 15 16 0 0 0 0 0 0 1 4\n\
        next colour any 8 8 8 16 17 16 512 8 128 8 128 1 5\n\
        start colour any 8 8 8 16 17 0 0 8 64 8 64 1 5\n\
        next colour any 8 8 8 32 16 31 512 16 128 16 128 1 6\n\
        next colour any 8 8 8 16 18 16 511 8 128 8 128 1 6\n\
        next mono any 8 8 8 16 16 15 256 8 64 8 64 1 6\n\
        start colour any 8 8 8 16 16 15 0 8 64 8 64 1 7\n\
        start colour any 8 8 8 16 16 15 256 8 63 8 64 1 7\n\
        start colour any 8 8 8 16 16 16 255 7 64 8 64 1 8\n\
        start colour any 8 8 8 16 16 16 255 8 64 7 64 1 8\n\
        start colour any 8 8 8 16 16 16 256 7 0 8 64 1 7\n\
        start colour any 8 8 8 16 16 16 256 7 64 8 63 1 7\n\
        start colour any 8 8 8 16 16 16 256 8 63 7 64 1 8\n\
        start colour any 8 8 8 16 16 16 256 8 64 7 0 1 7\n\
        next colour any 8 8 8 16 16 16 255 7 64 8 64 1 8\n",
    )
}
