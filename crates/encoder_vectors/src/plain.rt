// What a call whose planes hold one byte throughout has to write, written here byte by byte.
use crate::call::{Call, Entry};
use std::alloc::{AllocError, Global};

// The room for it.
const PLAIN: usize = 300000;

// The bytes written so far, and how many zeros stand before the next byte of a payload: 0, 1 or 2, counted since the last inserted byte.
#[derive(Drop)]
struct Writer {
    bytes: Vec<u8>,
    zeros: u8,
}

impl Writer {
    // Writes a byte, where there is room.
    fn put(&mut self, b: u8) -> Result<(), AllocError> {
        if self.bytes.len() < PLAIN {
            self.bytes.push(b)?;
        }
        Ok(())
    }

    // Writes bytes as they are.
    fn put_all(&mut self, bytes: &[u8]) -> Result<(), AllocError> {
        for b in bytes {
            self.put(*b)?;
        }
        Ok(())
    }

    // Writes a byte of a payload: behind two zeros a byte 03 goes before one of 00 to 03, and a zero is then the first again.
    fn put_escaped(&mut self, b: u8) -> Result<(), AllocError> {
        if self.zeros == 2 && b <= 3 {
            self.put(3)?;
        }
        self.put(b)?;
        self.zeros = match (b, self.zeros) {
            (0, 1) => 2,
            (0, _) => 1,
            _ => 0,
        };
        Ok(())
    }

    // Writes a macroblock's samples: `n` bytes `v`.
    fn put_samples(&mut self, v: u8, n: usize) -> Result<(), AllocError> {
        for _ in 0..n {
            self.put_escaped(v)?;
        }
        Ok(())
    }

    // Writes a picture of `count` macroblocks, each `n` bytes `v`.
    fn put_picture(&mut self, v: u8, n: usize, count: usize) -> Result<(), AllocError> {
        self.put_all(b"\x00\x00\x00\x01\x25\x88\x84\x28\x68")?;
        self.put_samples(v, n)?;
        for _ in 1..count {
            self.put_escaped(13)?;
            self.put_escaped(0)?;
            self.put_samples(v, n)?;
        }
        self.put(128)
    }

    // Writes the parameter sets.
    fn put_sets(&mut self, sps: &[u8]) -> Result<(), AllocError> {
        self.put_all(b"\x00\x00\x00\x01")?;
        self.put_all(sps)?;
        self.put_all(b"\x00\x00\x00\x01\x68\xCE\x38\x80")
    }
}

// What the call has to write, a picture of `count` macroblocks and in a start call the parameter sets before it; no more than there is room for.
pub fn bytes_of(
    alloc: Global,
    call: Call,
    sps: &[u8],
    count: usize,
) -> Result<Vec<u8>, AllocError> {
    let mut writer = Writer {
        bytes: Vec::new(alloc),
        zeros: 0,
    };
    if call.entry == Entry::Start {
        writer.put_sets(sps)?;
    }
    let v = (call.seed % 256) as u8;
    writer.put_picture(v, call.image.session().mb_bytes(), count)?;
    Ok(writer.bytes)
}
