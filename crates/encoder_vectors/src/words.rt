// The numbers that the words of a line are.

// The largest number that a word is.
const LARGEST: u64 = 18446744073709551609;

// The number that a word of digits is, up to LARGEST.
pub fn number(word: &str) -> Option<u64> {
    if word.starts_with('+') {
        return None;
    }
    word.parse().ok().filter(|x| *x <= LARGEST)
}

// The same as a u32; what no u32 holds is the largest of these, which the writer refuses.
pub fn short(word: &str) -> Option<u32> {
    number(word).map(|x| u32::try_from(x).unwrap_or(u32::MAX))
}
