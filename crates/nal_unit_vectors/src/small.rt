// All payloads of six bytes that the rule tells apart, against an escape that is written here byte by byte.
use crate::pair::judge;
use arrayvec::ArrayVec;
use tally::Tally;

// The bytes that the rule tells apart.
const VALUES: [u8; 6] = [0, 1, 2, 3, 4, 255];

// The payload of six bytes whose number is `k`, counted to six.
fn payload(k: usize) -> [u8; 6] {
    let mut bytes = [0u8; 6];
    let mut rest = k;
    for b in &mut bytes {
        *b = VALUES[rest % 6];
        rest /= 6;
    }
    bytes
}

// The escape of a payload: behind two zeros a byte 03 goes before one of 00 to 03.
fn escape(payload: &[u8; 6]) -> ArrayVec<u8, 12> {
    let mut out = ArrayVec::new();
    for b in payload {
        if out.ends_with(b"\x00\x00") && *b <= 3 {
            out.push(3);
        }
        out.push(*b);
    }
    out
}

// Judges all of them.
pub fn judge_all() -> Tally {
    let mut tally = Tally::default();
    for k in 0..46656 {
        let payload = payload(k);
        judge(&mut tally, &payload, escape(&payload).as_slice());
    }
    tally
}
