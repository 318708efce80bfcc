// The bytes of planes, drawn from a seed: the list gives the seed and the content, and not the bytes.

// What the bytes are: all the seed's lowest byte; any; none of them 0; some of them 0 to 3; most of them 0.
#[derive(Clone, Copy, Debug, PartialEq, Eq)]
pub enum Content {
    All,
    Any,
    None,
    Few,
    Many,
}

// The generator's next state (xorshift, 64 bits). reader_vectors has these lines too: a crate of their own would be no plainer.
fn step(x: u64) -> u64 {
    let a = x ^ (x << 13);
    let b = a ^ (a >> 7);
    b ^ (b << 17)
}

// Every eighth byte is 0, every eighth one of 0 to 3, and the others are not 0.
fn few(y: u64) -> u8 {
    match y % 8 {
        0 => 0,
        1 => (y / 8 % 4) as u8,
        _ => (y / 8 % 255 + 1) as u8,
    }
}

// Five of eight bytes are 0, and the others one of 0 to 4.
fn many(y: u64) -> u8 {
    if y % 8 < 5 { 0 } else { (y / 8 % 5) as u8 }
}

impl Content {
    // The state for the next byte; where all bytes are the same it stays.
    fn state_behind(self, x: u64) -> u64 {
        match self {
            Content::All => x,
            _ => step(x),
        }
    }

    // The byte of a state.
    fn byte(self, x: u64) -> u8 {
        let y = x >> 24;
        match self {
            Content::All => (x % 256) as u8,
            Content::Any => (y % 256) as u8,
            Content::None => (y % 255 + 1) as u8,
            Content::Few => few(y),
            Content::Many => many(y),
        }
    }

    // Draws the bytes of the planes.
    pub fn draw(self, planes: &mut [u8], seed: u64) {
        let mut x = seed;
        for b in planes {
            x = self.state_behind(x);
            *b = self.byte(x);
        }
    }
}
