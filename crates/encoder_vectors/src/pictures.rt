// Pictures that hold one byte throughout: those that 01 gives bytes or lengths of, and monochrome ones with chroma planes that no picture
// has. The sequence parameter sets are 01's cases 3 to 6.
use crate::list::judge_text;
use std::alloc::{AllocError, Global};
use tally::Tally;

// Samples 10, samples 00 and samples 10 in colour, 286, 413 and 414 bytes; then the other two cases.
pub fn paper(alloc: Global) -> Result<Tally, AllocError> {
    judge_text(
        alloc,
        b"start mono all 8 8 8 16 16 16 256 0 0 0 0 16 0 286 plain 1 6764000af3dc9b01\n\
        start mono all 8 8 8 16 16 16 256 0 0 0 0 0 0 413 plain 1 6764000af3dc9b01\n\
        start colour all 8 8 8 16 16 16 256 8 64 8 64 16 0 414 plain 1 6742000afb936020\n\
        start mono all 8 8 8 17 16 32 512 0 0 0 0 16 0 546 plain 2 6764000af3cb610e6c04\n\
        start mono all 12 12 12 16 16 24 384 0 0 0 0 16 0 415 plain 1 67f4000aca53dc9b01\n",
    )
}

// Chroma planes without bytes, with strides of 0 and near the largest number, with other depths: mono looks at none of that.
pub fn unread(alloc: Global) -> Result<Tally, AllocError> {
    judge_text(
        alloc,
        b"start mono all 8 12 12 16 16 16 256 0 0 0 0 16 0 286 plain 1 6764000af3dc9b01\n\
        next mono all 8 12 8 16 16 16 256 18446744073709551609 1 0 3 16 0 266 plain 1 -\n\
        start mono all 12 8 8 16 16 24 384 0 5 18446744073709551609 0 16 0 415 plain 1 67f4000aca53dc9b01\n\
        next mono all 12 8 12 16 16 24 384 7 63 1 0 16 0 394 plain 1 -\n",
    )
}
