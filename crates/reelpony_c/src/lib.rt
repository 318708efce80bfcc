// The exports that C links (include/reelpony.h): each call is the function of its name in the crate `reelpony`, with the same promise. They are written twice
// since the C interface has a static library, and take cites the calls of a library.
#![tactic(auto)]

ghost use Rattle.std.specs.Prelude.{◌≡◌};
ghost use Rattle.golomb.specs.Code.{ue};
ghost use Rattle.golomb.specs.Signed.{se};
ghost use Rattle.golomb.specs.Answers.{has_ue, has_se};
ghost use Rattle.nal_unit.specs.Answers.{escaped_out};
ghost use Rattle.reader.specs.Read.{plane_length};
ghost use Rattle.reelpony.specs.Numbers.{plane, picture_in, StartsIn, NextsIn};
ghost use Rattle.reelpony.specs.Pieces.{escape_number, escape_length, unescape_number, unescape_length, unescape_buffer, write_number, write_behind, write_buffer, read_ue_number, read_ue_x, read_ue_behind, read_se_number, read_se_x, read_se_behind};
ghost use Rattle.reelpony.specs.Reading.{held_in, ReadsIn};
ghost use Rattle.reelpony.specs.Room.{room_number};

// The start call: writes the parameter sets and the first picture, and begins a session.
#[unsafe(no_mangle)]
pub extern "C" fn reelpony_start(
    width: u32,
    height: u32,
    colour: u32,
    y: &[u8],
    y_stride: usize,
    y_depth: u32,
    cb: &[u8],
    cb_stride: usize,
    cb_depth: u32,
    cr: &[u8],
    cr_stride: usize,
    cr_depth: u32,
    out: &mut [u8],
    session: &mut [u32; 8],
    length: &mut u64,
) -> u32
    ensures { StartsIn (picture_in width height colour (plane y.now y_stride y_depth) (plane cb.now cb_stride cb_depth) (plane cr.now cr_stride cr_depth)) out.old session.old result length.new out.new session.new }
{
    reelpony::reelpony_start(
        width, height, colour, y, y_stride, y_depth, cb, cb_stride, cb_depth, cr, cr_stride,
        cr_depth, out, session, length,
    )
}

// The next call: writes one more picture in the session that the numbers say, and leaves them as they are.
#[unsafe(no_mangle)]
pub extern "C" fn reelpony_next(
    width: u32,
    height: u32,
    colour: u32,
    y: &[u8],
    y_stride: usize,
    y_depth: u32,
    cb: &[u8],
    cb_stride: usize,
    cb_depth: u32,
    cr: &[u8],
    cr_stride: usize,
    cr_depth: u32,
    out: &mut [u8],
    session: &mut [u32; 8],
    length: &mut u64,
) -> u32
    ensures { NextsIn (picture_in width height colour (plane y.now y_stride y_depth) (plane cb.now cb_stride cb_depth) (plane cr.now cr_stride cr_depth)) out.old session.old result length.new out.new session.new }
{
    reelpony::reelpony_next(
        width, height, colour, y, y_stride, y_depth, cb, cb_stride, cb_depth, cr, cr_stride,
        cr_depth, out, session, length,
    )
}

// A length of the output with which no call with a picture of this size, colour and depth is refused with 9, whatever the samples; 0 where such a call is
// refused with 99 or 1 to 5.
#[unsafe(no_mangle)]
pub extern "C" fn reelpony_room(width: u32, height: u32, colour: u32, depth: u32) -> u64
    ensures { result ≡ room_number width height colour depth }
{
    reelpony::reelpony_room(width, height, colour, depth)
}

// Escapes a payload into the output, from its first byte on: 0 and the length written, or 21, no room.
#[unsafe(no_mangle)]
pub extern "C" fn reelpony_escape(payload: &[u8], out: &mut [u8], length: &mut u64) -> u32
    ensures number { result ≡ escape_number payload.now out.old }
    ensures length { length.new ≡ escape_length payload.now out.old }
    ensures bytes { out.new ≡ escaped_out payload.now out.old }
{
    reelpony::pieces::reelpony_escape(payload, out, length)
}

// Takes the payload out of escaped bytes into the output, from its first byte on: 0 and the length written, 12, they hold what no unit holds, or 21, no room.
#[unsafe(no_mangle)]
pub extern "C" fn reelpony_unescape(payload: &[u8], out: &mut [u8], length: &mut u64) -> u32
    ensures number { result ≡ unescape_number payload.now out.old }
    ensures length { length.new ≡ unescape_length payload.now out.old }
    ensures bytes { out.new ≡ unescape_buffer payload.now out.old }
{
    reelpony::pieces::reelpony_unescape(payload, out, length)
}

// Writes the unsigned code of `x` at a bit place of the buffer: 0 and the place behind it, 20, `x` has no code, or 21, no room.
#[unsafe(no_mangle)]
pub extern "C" fn reelpony_write_ue(buffer: &mut [u8], place: u64, x: u32, behind: &mut u64) -> u32
    ensures number { result ≡ write_number (has_ue x) (ue x) buffer.old place }
    ensures behind { behind.new ≡ write_behind (has_ue x) (ue x) buffer.old place }
    ensures bytes { buffer.new ≡ write_buffer (has_ue x) (ue x) buffer.old place }
{
    reelpony::pieces::reelpony_write_ue(buffer, place, x, behind)
}

// The same of the signed code of `x`.
#[unsafe(no_mangle)]
pub extern "C" fn reelpony_write_se(buffer: &mut [u8], place: u64, x: i32, behind: &mut u64) -> u32
    ensures number { result ≡ write_number (has_se x) (se x) buffer.old place }
    ensures behind { behind.new ≡ write_behind (has_se x) (se x) buffer.old place }
    ensures bytes { buffer.new ≡ write_buffer (has_se x) (se x) buffer.old place }
{
    reelpony::pieces::reelpony_write_se(buffer, place, x, behind)
}

// Reads the unsigned code at a bit place of the payload: 0, the number in `x` and the place behind the code, or 22, no whole code.
#[unsafe(no_mangle)]
pub extern "C" fn reelpony_read_ue(payload: &[u8], place: u64, x: &mut u32, behind: &mut u64) -> u32
    ensures number { result ≡ read_ue_number payload.now place }
    ensures x { x.new ≡ read_ue_x payload.now place x.old }
    ensures behind { behind.new ≡ read_ue_behind payload.now place }
{
    reelpony::pieces::reelpony_read_ue(payload, place, x, behind)
}

// The same of the signed code there.
#[unsafe(no_mangle)]
pub extern "C" fn reelpony_read_se(payload: &[u8], place: u64, x: &mut i32, behind: &mut u64) -> u32
    ensures number { result ≡ read_se_number payload.now place }
    ensures x { x.new ≡ read_se_x payload.now place x.old }
    ensures behind { behind.new ≡ read_se_behind payload.now place }
{
    reelpony::pieces::reelpony_read_se(payload, place, x, behind)
}

// The call: one answer about what stands in the take from the reader's place on. Answers a refusal's number, or 0.
#[unsafe(no_mangle)]
pub extern "C" fn reelpony_read(
    take: &[u8],
    y: &mut [u8],
    cb: &mut [u8],
    cr: &mut [u8],
    reader: &mut [u64; 8],
    answer: &mut [u64; 8],
) -> u32
    ensures { ReadsIn take.now reader.old y.old cb.old cr.old result reader.new answer.new y.new cb.new cr.new }
{
    reelpony::read::reelpony_read(take, y, cb, cr, reader, answer)
}

// The length that the lent plane `plane` must have for a picture in this state; 0 where none is needed.
#[unsafe(no_mangle)]
pub extern "C" fn reelpony_plane_len(reader: &[u64; 8], plane: u32) -> u64
    ensures { result ≡ plane_length (held_in reader.now) plane }
{
    reelpony::read::reelpony_plane_len(reader, plane)
}
