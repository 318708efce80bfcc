// A checksum of bytes: FNV-1a of 64 bits.

// The sum of no bytes.
pub const EMPTY: u64 = 0xCBF29CE484222325;

// The prime of FNV: 2^40 + 435.
const PRIME: u64 = 0x100000001B3;

// The sum of bytes.
pub fn sum_of(bytes: &[u8]) -> u64 {
    bytes
        .iter()
        .fold(EMPTY, |x, b| (x ^ u64::from(*b)).wrapping_mul(PRIME))
}
