// Exp-Golomb codes (golomb.rs; ITU-T H.264 9.1) at a bit place of a lent buffer. BitVec becomes the lent bytes with a place;
// what the Rust cannot code, or finds no room for, is refused.
#![tactic(auto)]

ghost use Rattle.std.specs.Prelude.{◌≡◌, true, ◌+◌, ◌-◌, ◌≤◌, ◌^◌, min, nat_abs, length};
ghost use Rattle.bits.specs.Bits.{bits_from, bit_count, BitsPut};
ghost use Rattle.golomb.specs.Code.{num_bits, ue};
ghost use Rattle.golomb.specs.Read.{leading_zero_bits};
ghost use Rattle.golomb.specs.Signed.{se};
ghost use Rattle.golomb.specs.Signed.{mapped as Signed·mapped, unmapped as Signed·unmapped};
ghost use Rattle.golomb.specs.Answers.{write_of, buffer_of, has_ue, has_se, read_ue, read_se, read_u};

pub mod bit_reader;

// Why no code is written; the buffer and the place stay as they were.
#[derive(Clone, Copy, Debug, PartialEq, Eq)]
pub enum WriteError {
    NoCode,
    NoRoom,
}

// How many binary digits `x` has, 1 for 0.
fn num_bits(x: u32) -> usize
    ensures { result ≡ num_bits x }
{
    if x == 0 {
        return 1;
    }
    let mut rest = x;
    let mut value = 0;
    // A loop over no index, and no library method yet: the form by leading zeros is a change of its own here (docs/DECISIONS.md).
    while rest != 0 {
        rest >>= 1;
        value += 1;
    }
    value
}

// The bits of the unsigned code of `x`, a number that has one. That it has one stays a clause here and below, and no type:
// `put_ue` is public and asks it so.
fn code_len(x: u32) -> usize
    requires { x ≤ 2 ^ 32 - 2 }
    ensures { result ≡ length (ue x) }
{
    2 * num_bits(x + 1) - 1
}

// Buffer and place stay two parameters, since `put_ue`, `write_ue` and `write_se` promise to take them so; for reading both are `BitReader`.

// Writes the unsigned code of `x` where it has room, and answers the place behind it: a leaf for proved callers.
pub fn put_ue(buffer: &mut [u8], place: usize, x: u32) -> usize
    requires { (x ≤ 2 ^ 32 - 2) × (place + length (ue x) ≤ bit_count buffer.old) }
    ensures { BitsPut buffer.old place (ue x) buffer.new result }
{
    let n = code_len(x);
    bits::put_bits(buffer, place, n, x as u64 + 1)
}

// Writes the unsigned code of `x`, a number that has one, or finds no room.
fn put_code(buffer: &mut [u8], place: usize, x: u32) -> Result<usize, WriteError>
    requires { x ≤ 2 ^ 32 - 2 }
    ensures answer { result ≡ write_of true (ue x) buffer.old place }
    ensures bytes { buffer.new ≡ buffer_of (write_of true (ue x) buffer.old place) (ue x) buffer.old place }
{
    if !bits::room(buffer.len(), place, code_len(x)) {
        return Err(WriteError::NoRoom);
    }
    Ok(put_ue(buffer, place, x))
}

// Writes the unsigned code of `x` at `place`, and answers the place behind it.
pub fn write_ue(buffer: &mut [u8], place: usize, x: u32) -> Result<usize, WriteError>
    ensures answer { result ≡ write_of (has_ue x) (ue x) buffer.old place }
    ensures bytes { buffer.new ≡ buffer_of (write_of (has_ue x) (ue x) buffer.old place) (ue x) buffer.old place }
{
    if x == 4294967295 {
        return Err(WriteError::NoCode);
    }
    put_code(buffer, place, x)
}

// The number whose unsigned code `x` has.
fn mapped(x: i32) -> u32
    requires { nat_abs x ≤ 2 ^ 31 - 1 }
    ensures { result ≡ Signed·mapped x }
{
    let above = x > 0;
    if above {
        2 * x.unsigned_abs() - 1
    } else {
        2 * x.unsigned_abs()
    }
}

// Writes the signed code of `x` at `place`, and answers the place behind it.
pub fn write_se(buffer: &mut [u8], place: usize, x: i32) -> Result<usize, WriteError>
    ensures answer { result ≡ write_of (has_se x) (se x) buffer.old place }
    ensures bytes { buffer.new ≡ buffer_of (write_of (has_se x) (se x) buffer.old place) (se x) buffer.old place }
{
    let least = x == -2147483648;
    if least {
        return Err(WriteError::NoCode);
    }
    put_code(buffer, place, mapped(x))
}

// How many zero bits stand at `place` before a 1 or the end, counted as far as 32.
fn leading_zero_bits(payload: &[u8], place: usize) -> usize
    ensures { result ≡ min (leading_zero_bits (bits_from payload.now place)) 32 }
{
    for zeros in 0..32 {
        if !bits::room(payload.len(), place, zeros + 1) {
            return zeros;
        }
        if bits::bit_at(payload, place + zeros) != 0 {
            return zeros;
        }
    }
    32
}

// The number whose unsigned code stands at `place`, and the place behind the code.
pub fn read_ue(payload: &[u8], place: usize) -> Option<(u32, usize)>
    ensures { result ≡ read_ue payload.now place }
{
    let zeros = leading_zero_bits(payload, place);
    if 31 < zeros {
        return None;
    }
    let n = 2 * zeros + 1;
    if !bits::room(payload.len(), place, n) {
        return None;
    }
    let suffix = bits::get_bits(payload, place + (zeros + 1), zeros);
    Some((((1u64 << zeros) - 1 + suffix) as u32, place + n))
}

// What the unsigned number `k` stands for.
fn unmapped(k: u32) -> i32
    requires { k ≤ 2 ^ 32 - 2 }
    ensures { result ≡ Signed·unmapped k }
{
    let odd = k % 2 == 1;
    if odd {
        ((k + 1) / 2) as i32
    } else {
        -((k / 2) as i32)
    }
}

// The number whose signed code stands at `place`, and the place behind the code.
pub fn read_se(payload: &[u8], place: usize) -> Option<(i32, usize)>
    ensures { result ≡ read_se payload.now place }
{
    let (k, behind) = read_ue(payload, place)?;
    Some((unmapped(k), behind))
}

// The number that the `n` bits at `place` spell, the standard's u(n), and the place behind them.
pub fn read_u(payload: &[u8], place: usize, n: usize) -> Option<(u64, usize)>
    ensures { result ≡ read_u payload.now place n }
{
    if 64 < n {
        return None;
    }
    if !bits::room(payload.len(), place, n) {
        return None;
    }
    Some((bits::get_bits(payload, place, n), place + n))
}
