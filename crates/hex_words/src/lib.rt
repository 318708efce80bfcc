// Bytes in the lines of the texts that programs compare the library with: a word of hex digits, or `-` for no bytes.
#![tactic(auto)]

ghost use Rattle.std.specs.Prelude.{◌≡◌, ◌≢◌, ◌↔◌, IfOk, IfSome, IsSome, IsTrue, Some, [], codes};
ghost use Rattle.hex_words.specs.Spelling.{Accepted, Spelled, is_digit};

use std::alloc::{AllocError, Global};

#[cfg(test)]
mod tests;

// Whether a byte of the text is a hex digit, in lower case.
fn is_digit(b: u8) -> bool
    ensures { result ≡ is_digit b }
{
    matches!(b, b'0'..=b'9' | b'a'..=b'f')
}

// Whether a word is the digits of some bytes, of `most` at most.
fn is_accepted(word: &[u8], most: usize) -> bool
    ensures { IsTrue result ↔ Accepted most word.now }
{
    !word.is_empty()
        && word.len() % 2 == 0
        && word.len() / 2 <= most
        && word.iter().all(|b| is_digit(*b))
}

// The bytes that a word spells by two digits each; nothing of another word, nor of one of more than `most` bytes.
fn decode_digits(alloc: Global, word: &[u8], most: usize) -> Result<Option<Vec<u8>>, AllocError>
    ensures accepted { IfOk result (λ found. IsSome found ↔ Accepted most word.now) }
    ensures bytes { IfOk result (λ found. IfSome found (λ bytes. Spelled word.now bytes.items)) }
{
    if !is_accepted(word, most) {
        return Ok(None);
    }
    let mut bytes = vec![in alloc; 0u8; word.len() / 2]?;
    match hex::decode_to_slice(word, bytes.as_mut_slice()) {
        Ok(()) => Ok(Some(bytes)),
        Err(_) => Ok(None),
    }
}

// The same, and no bytes of the word `-`.
pub fn decode(alloc: Global, word: &[u8], most: usize) -> Result<Option<Vec<u8>>, AllocError>
    ensures none { word.now ≡ codes "-" → IfOk result (λ found. IsSome found × IfSome found (λ bytes. bytes.items ≡ [])) }
    ensures accepted { word.now ≢ codes "-" → IfOk result (λ found. IsSome found ↔ Accepted most word.now) }
    ensures bytes { word.now ≢ codes "-" → IfOk result (λ found. IfSome found (λ bytes. Spelled word.now bytes.items)) }
{
    if word == b"-".as_slice() {
        return Ok(Some(Vec::new(alloc)));
    }
    decode_digits(alloc, word, most)
}
