// Two takes of one picture, written by hand: units as 01 gives them, samples of one byte in each plane.

// Writes bytes over those of a take from `place` on.
pub fn put(take: &mut [u8], place: usize, bytes: &[u8]) {
    for (to, b) in take.iter_mut().skip(place).zip(bytes) {
        *to = *b;
    }
}

// Changes the bit number `k`, counted from the first byte's highest.
pub fn flip(take: &mut [u8], k: usize) {
    if let Some(b) = take.get_mut(k / 8) {
        *b ^= 128 >> (k % 8);
    }
}

// The length of the take in mono 8, 17 by 16: two macroblocks. The picture's zeros begin at 22, its header is at 26, the slice header at 27, the
// second macroblock's head at 287, the last byte at 545.
pub const WIDE: usize = 546;

// That take; its samples are 10 hex.
pub fn wide() -> [u8; WIDE] {
    let mut take = [0x10; WIDE];
    put(
        &mut take,
        0,
        b"\x00\x00\x00\x01\x67\x64\x00\x0A\xF3\xCB\x61\x0E\x6C\x04",
    );
    put(&mut take, 14, b"\x00\x00\x00\x01\x68\xCE\x38\x80");
    put(&mut take, 22, b"\x00\x00\x00\x01\x25\x88\x84\x28\x68");
    put(&mut take, 287, b"\x0D\x00");
    put(&mut take, 545, b"\x80");
    take
}

// The length of the take in colour 8, 16 by 16: one macroblock. The picture's zeros begin at 20, its header is at 24.
pub const COLOUR: usize = 414;

// That take; the samples of Y are 10 hex, those of Cb 20, those of Cr 30.
pub fn colour() -> [u8; COLOUR] {
    let mut take = [0x10; COLOUR];
    put(
        &mut take,
        0,
        b"\x00\x00\x00\x01\x67\x42\x00\x0A\xFB\x93\x60\x20\x00\x00\x00\x01\x68\xCE\x38\x80",
    );
    put(&mut take, 20, b"\x00\x00\x00\x01\x25\x88\x84\x28\x68");
    put(&mut take, 285, &[0x20; 64]);
    put(&mut take, 349, &[0x30; 64]);
    put(&mut take, 413, b"\x80");
    take
}
