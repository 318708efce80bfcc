// Bits of a lent buffer, the most significant of each byte first: the role of BitVec<u8, Msb0> in the Rust. A bit's place is
// counted from the buffer's first bit. What is public here is a leaf for proved callers; codes with refusals stand in golomb.
// Buffer and place stay two parameters, since `bit_at`, `put_bits` and `get_bits` promise to take them so.
#![tactic(auto)]

ghost use Rattle.std.specs.Prelude.{◌≡◌, ◌+◌, ◌*◌, ◌≤◌, ◌<◌, length, get_or, set};
ghost use Rattle.lists.specs.Part.{part};
ghost use Rattle.bits.specs.Bits.{low_bits, bits_of, value, bit_count, room_for, BitsPut};

// Whether `n` bits have room at `place` of a buffer of `len` bytes.
#[tactic(auto, unfolding(crate::specs::Bits::room_for))]
pub fn room(len: usize, place: usize, n: usize) -> bool
    ensures { result ≡ room_for len place n }
{
    if usize::MAX - place < n {
        return false;
    }
    if len < place / 8 {
        return false;
    }
    n / 8 + (n % 8 + place % 8 + 7) / 8 <= len - place / 8
}

// The byte `b` with its bit `j`, counted from the most significant, set to `v`.
fn with_bit(b: u8, j: usize, v: u8) -> u8
    requires { (j < 8) × (v < 2) }
    ensures { low_bits 8 result ≡ set (low_bits 8 b) j v }
{
    let weight = 1u32 << (7 - j);
    let above = b as u32 / weight / 2 * 2 + v as u32;
    (above * weight + b as u32 % weight) as u8
}

// The bit at `place`.
#[tactic(auto, using(crate::specs::Bits::bit_is))]
pub fn bit_at(s: &[u8], place: usize) -> u8
    requires { place < 8 * length s.now }
    ensures { result ≡ get_or (bits_of s.now) place 0 }
{
    (s[place / 8] >> (7 - place % 8)) % 2
}

// Sets the bit at `place` to `v` and no other.
fn set_bit(s: &mut [u8], place: usize, v: u8)
    requires { (place < 8 * length s.old) × (v < 2) }
    ensures { bits_of s.new ≡ set (bits_of s.old) place v }
{
    let i = place / 8;
    s[i] = with_bit(s[i], place % 8, v);
}

// Writes `v` in `n` bits from `place` on, and answers the place behind them.
pub fn put_bits(s: &mut [u8], place: usize, n: usize, v: u64) -> usize
    requires { (n ≤ 64) × (place + n ≤ bit_count s.old) }
    ensures { BitsPut s.old place (low_bits n v) s.new result }
{
    for i in 0..n {
        set_bit(s, place + i, ((v >> (n - 1 - i)) % 2) as u8);
    }
    place + n
}

// The number that the `n` bits from `place` on spell.
pub fn get_bits(s: &[u8], place: usize, n: usize) -> u64
    requires { (n ≤ 64) × (place + n ≤ bit_count s.now) }
    ensures { result ≡ value (part (bits_of s.now) place n) }
{
    let mut v: u64 = 0;
    for i in 0..n {
        v = 2 * v + bit_at(s, place + i) as u64;
    }
    v
}
