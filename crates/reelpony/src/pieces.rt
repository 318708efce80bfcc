// The pieces of writing and reading as C sees them (include/reelpony.h): escaping, unescaping and both Exp-Golomb codes. Each function answers a refusal's number,
// 0 where the call is accepted. A refused call tells a length of 0, or the place given, and leaves all else that is lent to it as it was.
ghost use Rattle.std.specs.Prelude.{◌≡◌};
ghost use Rattle.golomb.specs.Code.{ue};
ghost use Rattle.golomb.specs.Signed.{se};
ghost use Rattle.golomb.specs.Answers.{written, written_place, has_ue, has_se, read_answer, read_number, read_place};
ghost use Rattle.nal_unit.specs.Answers.{escaped_out};
ghost use Rattle.reelpony.specs.Pieces.{escape_number, escape_length, unescape_number, unescape_length, unescape_buffer, write_number, write_behind, write_buffer, read_ue_number, read_ue_x, read_ue_behind, read_se_number, read_se_x, read_se_behind};

use golomb::WriteError;
use nal_unit::unescape::UnescapeError;

// Escapes a payload into the output, from its first byte on: 0 and the length written, or 21, no room.
pub fn reelpony_escape(payload: &[u8], out: &mut [u8], length: &mut u64) -> u32
    ensures number { result ≡ escape_number payload.now out.old }
    ensures length { length.new ≡ escape_length payload.now out.old }
    ensures bytes { out.new ≡ escaped_out payload.now out.old }
{
    let written = nal_unit::rbsp_to_ebsp(payload, out);
    *length = written.unwrap_or(0) as u64;
    match written {
        Some(_) => 0,
        None => 21,
    }
}

// Takes the payload out of escaped bytes into the output, from its first byte on: 0 and the length written, 12, they hold what no unit holds, or 21, no room.
pub fn reelpony_unescape(payload: &[u8], out: &mut [u8], length: &mut u64) -> u32
    ensures number { result ≡ unescape_number payload.now out.old }
    ensures length { length.new ≡ unescape_length payload.now out.old }
    ensures bytes { out.new ≡ unescape_buffer payload.now out.old }
{
    let written = nal_unit::unescape::unescape(payload, out);
    *length = written.unwrap_or(0) as u64;
    match written {
        Ok(_) => 0,
        Err(UnescapeError::Fault) => 12,
        Err(UnescapeError::NoRoom) => 21,
    }
}

// Tells C of a code's being written: the answer's number, and the place behind the code, or the place given.
fn tell_written(a: Result<usize, WriteError>, place: u64, behind: &mut u64) -> u32
    ensures number { result ≡ written a }
    ensures place { behind.new ≡ written_place a place }
{
    *behind = place;
    match a {
        Ok(p) => {
            *behind = p as u64;
            0
        }
        Err(WriteError::NoCode) => 20,
        Err(WriteError::NoRoom) => 21,
    }
}

// Writes the unsigned code of `x` at a bit place of the buffer: 0 and the place behind it, 20, `x` has no code, or 21, no room.
pub fn reelpony_write_ue(buffer: &mut [u8], place: u64, x: u32, behind: &mut u64) -> u32
    ensures number { result ≡ write_number (has_ue x) (ue x) buffer.old place }
    ensures behind { behind.new ≡ write_behind (has_ue x) (ue x) buffer.old place }
    ensures bytes { buffer.new ≡ write_buffer (has_ue x) (ue x) buffer.old place }
{
    tell_written(golomb::write_ue(buffer, place as usize, x), place, behind)
}

// The same of the signed code of `x`.
pub fn reelpony_write_se(buffer: &mut [u8], place: u64, x: i32, behind: &mut u64) -> u32
    ensures number { result ≡ write_number (has_se x) (se x) buffer.old place }
    ensures behind { behind.new ≡ write_behind (has_se x) (se x) buffer.old place }
    ensures bytes { buffer.new ≡ write_buffer (has_se x) (se x) buffer.old place }
{
    tell_written(golomb::write_se(buffer, place as usize, x), place, behind)
}

// Tells C of a code's being read: the answer's number, the number in `x`, which stays where there is no code, and the place behind the code, or the place given.
fn tell_read<T: Copy>(a: Option<(T, usize)>, place: u64, x: &mut T, behind: &mut u64) -> u32
    ensures number { result ≡ read_answer a }
    ensures x { x.new ≡ read_number a x.old }
    ensures behind { behind.new ≡ read_place a place }
{
    *behind = place;
    let Some((n, p)) = a else {
        return 22;
    };
    *x = n;
    *behind = p as u64;
    0
}

// Reads the unsigned code at a bit place of the payload: 0, the number in `x` and the place behind the code, or 22, no whole code.
pub fn reelpony_read_ue(payload: &[u8], place: u64, x: &mut u32, behind: &mut u64) -> u32
    ensures number { result ≡ read_ue_number payload.now place }
    ensures x { x.new ≡ read_ue_x payload.now place x.old }
    ensures behind { behind.new ≡ read_ue_behind payload.now place }
{
    tell_read(golomb::read_ue(payload, place as usize), place, x, behind)
}

// The same of the signed code there.
pub fn reelpony_read_se(payload: &[u8], place: u64, x: &mut i32, behind: &mut u64) -> u32
    ensures number { result ≡ read_se_number payload.now place }
    ensures x { x.new ≡ read_se_x payload.now place x.old }
    ensures behind { behind.new ≡ read_se_behind payload.now place }
{
    tell_read(golomb::read_se(payload, place as usize), place, x, behind)
}
