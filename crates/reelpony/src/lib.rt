// The library as C sees it (include/reelpony.h). Kinds, depths and sessions are numbers here; a number that is none of them is refused with 99 before every
// other test. Each function answers a refusal's number, 0 where the call is accepted. Parameters, numbers and words are those of the C interface, and so stay as
// they are, one by one; behind them stand the crates' own types.
#![tactic(auto)]

pub mod pieces;
pub mod read;

ghost use Rattle.std.specs.Prelude.{◌≡◌};
ghost use Rattle.encoder.specs.Answers.{number_of, length_of};
ghost use Rattle.reelpony.specs.Numbers.{plane, picture_in, held_of, words_of, words_after, StartsIn, NextsIn};
ghost use Rattle.reelpony.specs.Code.{kind_in, depth_in, form_in, session_in};
ghost use Rattle.reelpony.specs.Room.{room_number};

use encoder::{Depths, EncodeError, Picture, Written};
use slice::{Planes, Strides};
use ycbcr_image::{BitDepth, Kind, Session};

// The kind of a colour, as C numbers it; None for a number that is none. (No TryFrom, here and below: the types are another crate's.)
#[tactic(auto, unfolding(crate::specs::Numbers::colour_known, crate::specs::Numbers::kind_of))]
fn kind_of(colour: u32) -> Option<Kind>
    ensures { result ≡ kind_in colour }
{
    match colour {
        0 => Some(Kind::Mono),
        1 => Some(Kind::Colour),
        _ => None,
    }
}

// The depth of a number of bits, as C says it; None for a number that is none.
#[tactic(auto, unfolding(crate::specs::Numbers::depth_known, crate::specs::Numbers::bit_depth_of))]
fn depth_of(bits: u32) -> Option<BitDepth>
    ensures { result ≡ depth_in bits }
{
    match bits {
        8 => Some(BitDepth::Depth8),
        12 => Some(BitDepth::Depth12),
        _ => None,
    }
}

// The kind and the depths that a call's numbers say; None where one that is looked at says none. Of mono the depths of Cb and Cr are not looked at.
fn form_of(colour: u32, y: u32, cb: u32, cr: u32) -> Option<(Kind, Depths)>
    ensures { result ≡ form_in colour y cb cr }
{
    let kind = kind_of(colour)?;
    let y = depth_of(y)?;
    let depths = match kind {
        Kind::Mono => Depths { y, cb: y, cr: y },
        Kind::Colour => Depths {
            y,
            cb: depth_of(cb)?,
            cr: depth_of(cr)?,
        },
    };
    Some((kind, depths))
}

// The session of a size, a colour and a number of bits; None where one of the two last is none.
fn session_of(width: u32, height: u32, colour: u32, bits: u32) -> Option<Session>
    ensures { result ≡ session_in width height colour bits }
{
    let kind = kind_of(colour)?;
    let depth = depth_of(bits)?;
    Some(Session {
        width,
        height,
        kind,
        depth,
    })
}

// The session that eight numbers say; one of no size, which no picture has, where they say none: so `held_of` says it, and each picture differs from it.
fn held(session: &[u32; 8]) -> Session
    ensures { result ≡ held_of session.now }
{
    match session_of(session[0], session[1], session[2], session[3]) {
        Some(s) => s,
        None => Session {
            width: 0,
            height: 0,
            kind: Kind::Mono,
            depth: BitDepth::Depth8,
        },
    }
}

// The eight numbers of a session.
fn words_of(s: Session) -> [u32; 8]
    ensures { result ≡ words_of s }
{
    let colour = s.kind.chroma_format_idc();
    let bits = s.depth.num_bits();
    [s.width, s.height, colour, bits, 0, 0, 0, 0]
}

// Keeps the session that an answer leaves.
fn keep_after(a: Result<Written, EncodeError>, session: &mut [u32; 8])
    ensures { session.new ≡ words_after a session.old }
{
    if let Ok(written) = a {
        *session = words_of(written.session);
    }
}

// The number of an answer.
fn number(a: Result<Written, EncodeError>) -> u32
    ensures { result ≡ number_of a }
{
    match a {
        Ok(_) => 0,
        Err(EncodeError::NoRoom(_)) => 9,
        Err(EncodeError::Refused(r)) => r.number(),
    }
}

// Its length: what was written, or what is needed.
fn length_in(a: Result<Written, EncodeError>) -> usize
    ensures { result ≡ length_of a }
{
    match a {
        Ok(w) => w.length,
        Err(EncodeError::NoRoom(n)) => n,
        Err(EncodeError::Refused(_)) => 0,
    }
}

// The start call: writes the parameter sets and the first picture, and begins a session. It and the next call begin alike: a function that put the picture
// together would have all of their parameters again.
pub fn reelpony_start(
    width: u32,
    height: u32,
    colour: u32,
    y: &[u8],
    y_stride: usize,
    y_depth: u32,
    cb: &[u8],
    cb_stride: usize,
    cb_depth: u32,
    cr: &[u8],
    cr_stride: usize,
    cr_depth: u32,
    out: &mut [u8],
    session: &mut [u32; 8],
    length: &mut u64,
) -> u32
    ensures { StartsIn (picture_in width height colour (plane y.now y_stride y_depth) (plane cb.now cb_stride cb_depth) (plane cr.now cr_stride cr_depth)) out.old session.old result length.new out.new session.new }
{
    let Some((kind, depths)) = form_of(colour, y_depth, cb_depth, cr_depth) else {
        *length = 0;
        return 99;
    };
    let strides = Strides {
        y: y_stride,
        cb: cb_stride,
        cr: cr_stride,
    };
    let planes = Planes { y, cb, cr, strides };
    let picture = Picture {
        width,
        height,
        kind,
        planes,
        depths,
    };
    let a = encoder::start(picture, out);
    keep_after(a, session);
    *length = length_in(a) as u64;
    number(a)
}

// The next call: writes one more picture in the session that the numbers say, and leaves them as they are.
pub fn reelpony_next(
    width: u32,
    height: u32,
    colour: u32,
    y: &[u8],
    y_stride: usize,
    y_depth: u32,
    cb: &[u8],
    cb_stride: usize,
    cb_depth: u32,
    cr: &[u8],
    cr_stride: usize,
    cr_depth: u32,
    out: &mut [u8],
    session: &mut [u32; 8],
    length: &mut u64,
) -> u32
    ensures { NextsIn (picture_in width height colour (plane y.now y_stride y_depth) (plane cb.now cb_stride cb_depth) (plane cr.now cr_stride cr_depth)) out.old session.old result length.new out.new session.new }
{
    let Some((kind, depths)) = form_of(colour, y_depth, cb_depth, cr_depth) else {
        *length = 0;
        return 99;
    };
    let strides = Strides {
        y: y_stride,
        cb: cb_stride,
        cr: cr_stride,
    };
    let planes = Planes { y, cb, cr, strides };
    let picture = Picture {
        width,
        height,
        kind,
        planes,
        depths,
    };
    let a = encoder::next(held(&*session), picture, out);
    *length = length_in(a) as u64;
    number(a)
}

// A length of the output with which no call with a picture of this size, colour and depth is refused with 9, whatever the samples; 0 where such a call is
// refused with 99 or 1 to 5.
pub fn reelpony_room(width: u32, height: u32, colour: u32, depth: u32) -> u64
    ensures { result ≡ room_number width height colour depth }
{
    let Some((kind, depths)) = form_of(colour, depth, depth, depth) else {
        return 0;
    };
    let s = Session {
        width,
        height,
        kind,
        depth: depths.y,
    };
    encoder::room(s) as u64
}
