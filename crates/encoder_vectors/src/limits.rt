// The limits of widths and heights: pictures within them are accepted, and those beyond are refused with 1, 3, 4 and 5, their planes being long
// enough. The sequence parameter sets are those that less-avc writes.
use crate::list::judge_text;
use std::alloc::{AllocError, Global};
use tally::Tally;

// 16,384 columns, and 16,384 rows. Both at once: the size passes, and a plane is refused, in each kind. Then more of either, none, and the largest
// number.
pub fn sizes(alloc: Global) -> Result<Tally, AllocError> {
    judge_text(
        alloc,
        b"start mono all 8 8 8 16384 1 16384 262144 0 0 0 0 16 0 264224 plain 1024 6764000af3c00400de109b01\n\
        start mono all 8 8 8 1 16384 16 262144 0 0 0 0 16 0 264224 plain 1024 6764000af3d0020058439b01\n\
        start mono any 8 8 8 16384 16384 16384 262144 0 0 0 0 1 8\n\
        start mono any 8 8 8 16384 16384 16383 262144 0 0 0 0 1 7\n\
        start mono any 12 12 12 16384 16384 24576 393216 0 0 0 0 1 8\n\
        start mono any 12 12 12 16384 16384 24575 393216 0 0 0 0 1 7\n\
        start colour any 8 8 8 16384 16384 16384 262144 8192 65536 8192 65536 1 8\n\
        start colour any 8 8 8 16384 16384 16383 262144 8192 65536 8192 65536 1 7\n\
        start colour any 12 12 12 16384 16384 24576 393216 12288 98304 12288 98304 1 8\n\
        start colour any 12 12 12 16384 16384 24575 393216 12288 98304 12288 98304 1 7\n\
        start mono any 8 8 8 16385 1 16400 262400 0 0 0 0 1 1\n\
        start mono any 8 8 8 1 16385 16 262400 0 0 0 0 1 1\n\
        start mono any 12 12 12 16386 1 24600 393600 0 0 0 0 1 1\n\
        start mono any 12 12 12 2 16385 24 393600 0 0 0 0 1 1\n\
        start colour any 8 8 8 16386 2 16400 262400 8200 65600 8200 65600 1 1\n\
        start colour any 8 8 8 2 16386 16 262400 8 65600 8 65600 1 1\n\
        start colour any 12 12 12 16388 2 24600 393600 12300 98400 12300 98400 1 1\n\
        start colour any 12 12 12 4 16386 24 393600 12 98400 12 98400 1 1\n\
        start mono any 8 8 8 0 1 16 256 0 0 0 0 1 1\n\
        start mono any 8 8 8 1 0 16 256 0 0 0 0 1 1\n\
        start mono any 8 8 8 4294967295 1 16 256 0 0 0 0 1 1\n\
        start mono any 8 8 8 1 4294967295 16 256 0 0 0 0 1 1\n\
        start colour any 8 8 8 0 16 16 256 8 64 8 64 1 1\n\
        start colour any 8 8 8 16 0 16 256 8 64 8 64 1 1\n",
    )
}

// The narrowest pictures of mono 8 and of colour 12, and colour pictures of 16 rows. Then widths that are no multiple of 4 in colour 12, widths
// that are odd in any kind but mono 8, and heights that are odd in colour.
pub fn shapes(alloc: Global) -> Result<Tally, AllocError> {
    judge_text(
        alloc,
        b"start mono all 8 8 8 1 16 16 256 0 0 0 0 16 0 288 plain 1 6764000af3dd8439b010\n\
        start mono all 8 8 8 1 1 16 256 0 0 0 0 16 0 289 plain 1 6764000af3dd842109b010\n\
        start colour all 12 12 12 4 16 24 384 12 96 12 96 16 0 609 plain 1 67f4000aa294f767e6c040\n\
        start colour all 12 12 12 16 16 24 384 12 96 12 96 16 0 608 plain 1 67f4000aa294f726c040\n\
        start colour all 8 8 8 6 16 16 256 8 64 8 64 16 0 415 plain 1 6742000afbb3736020\n\
        start colour any 12 12 12 6 16 24 384 12 96 12 96 1 3\n\
        start colour any 12 12 12 2 16 24 384 12 96 12 96 1 3\n\
        start colour any 12 12 12 18 16 48 768 24 192 24 192 1 3\n\
        start colour any 8 8 8 15 16 16 256 8 64 8 64 1 4\n\
        start colour any 8 8 8 1 16 16 256 8 64 8 64 1 4\n\
        start colour any 8 8 8 17 16 32 512 16 128 16 128 1 4\n\
        start mono any 12 12 12 15 16 24 384 0 0 0 0 1 4\n\
        start mono any 12 12 12 1 16 24 384 0 0 0 0 1 4\n\
        start colour any 8 8 8 16 17 16 512 8 128 8 128 1 5\n\
        start colour any 8 8 8 16 15 16 512 8 128 8 128 1 5\n\
        start colour any 8 8 8 16 1 16 512 8 128 8 128 1 5\n\
        start colour any 12 12 12 16 17 24 768 12 192 12 192 1 5\n",
    )
}
