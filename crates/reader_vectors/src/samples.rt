// The bytes of planes, drawn from a seed.
use std::alloc::{AllocError, Global};

// What the bytes are: zeros; none of them 0; 00 to 03 only; one in four of those.
#[derive(Clone, Copy, Debug, PartialEq, Eq)]
pub enum Content {
    Zeros,
    None,
    Low,
    Quarter,
}

impl Content {
    // The content of a number: the four in turn.
    pub fn numbered(number: u64) -> Self {
        match number % 4 {
            0 => Content::Zeros,
            1 => Content::None,
            2 => Content::Low,
            _ => Content::Quarter,
        }
    }

    // The byte of a draw.
    fn byte(self, y: u64) -> u8 {
        match self {
            Content::Zeros => 0,
            Content::None => (y % 255 + 1) as u8,
            Content::Quarter if y % 4 != 0 => (y / 4 % 256) as u8,
            _ => (y / 4 % 4) as u8,
        }
    }
}

// The generator (xorshift, 64 bits), and what it draws.
#[derive(Clone, Copy, Debug, PartialEq, Eq)]
pub struct Generator {
    state: u64,
    content: Content,
}

impl Generator {
    pub fn new(content: Content, seed: u64) -> Self {
        Generator {
            state: seed,
            content,
        }
    }

    // The next byte. encoder_vectors has the generator's lines too: a crate of their own would be no plainer.
    fn draw(&mut self) -> u8 {
        let a = self.state ^ (self.state << 13);
        let b = a ^ (a >> 7);
        self.state = b ^ (b << 17);
        self.content.byte(self.state >> 24)
    }

    // The next `n` bytes.
    pub fn plane(&mut self, alloc: Global, n: usize) -> Result<Vec<u8>, AllocError> {
        let mut plane = vec![in alloc; 0u8; n]?;
        for b in plane.iter_mut() {
            *b = self.draw();
        }
        Ok(plane)
    }
}
