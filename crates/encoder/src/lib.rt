// The writer (encoder.rs: LessEncoder). A start call writes the parameter sets and the first picture and leaves a session; a next call writes one more
// picture. Both write one lent output from its first byte on. The Rust's LessEncoder is the session, which a call takes and answers by value.
#![tactic(auto)]

ghost use Rattle.std.specs.Prelude.{◌≡◌, true, ◌+◌, ◌≤◌, length};
ghost use Rattle.ycbcr_image.specs.Sizes.{sequence_of};
ghost use Rattle.ycbcr_image.specs.Refusals.{accepted};
ghost use Rattle.ycbcr_image.specs.Accepted.{Fine};
ghost use Rattle.slice.specs.Laid.{Laid};
ghost use Rattle.slice.specs.Macroblocks.{lends_in, Ready, Ready-prop};
ghost use Rattle.encoder.specs.declared.EncodeError.TheVariants.{Refused};
ghost use Rattle.encoder.specs.Shot.{lent, plane_of, shot_of, image_of};
ghost use Rattle.encoder.specs.Answers.{start_of, start_out, next_of, next_out};
ghost use Rattle.encoder.specs.Code.{sets, picture_bytes, lack};
ghost use Rattle.encoder.specs.Room.{sets_most, picture_most, room_of};

use nal_unit::{count, fast, unit};
use slice::Planes;
use ycbcr_image::{BitDepth, DataPlane, Kind, Refusal, Session, YCbCrImage};

// The most that the units of both parameter sets have.
const SETS_MOST: usize = 64;

// The bits of a sample in each lent plane.
#[derive(Clone, Copy, Debug, PartialEq, Eq)]
pub struct Depths {
    pub y: BitDepth,
    pub cb: BitDepth,
    pub cr: BitDepth,
}

// A picture as a host lends it.
#[derive(Clone, Copy, Debug, PartialEq, Eq)]
pub struct Picture<'a> {
    pub width: u32,
    pub height: u32,
    pub kind: Kind,
    pub planes: Planes<'a>,
    pub depths: Depths,
}

// What a call did: the session that it leaves, and the length written.
#[derive(Clone, Copy, Debug, PartialEq, Eq)]
pub struct Written {
    pub session: Session,
    pub length: usize,
}

// Why a call writes nothing: the output is too short (9), and the length needed; or the refusal.
#[derive(Clone, Copy, Debug, PartialEq, Eq)]
pub enum EncodeError {
    NoRoom(usize),
    Refused(Refusal),
}

impl From<Refusal> for EncodeError {
    ghost from_gives = { λ r e. e ≡ Refused r };

    fn from(r: Refusal) -> EncodeError {
        EncodeError::Refused(r)
    }
}

// The numbers of a lent plane.
fn plane_of(bytes: &[u8], stride: usize, depth: BitDepth) -> DataPlane
    ensures { result ≡ plane_of (lent bytes.now stride depth) }
{
    DataPlane {
        len: bytes.len(),
        stride,
        depth,
    }
}

impl Picture<'_> {
    // Its numbers, by which it is accepted or refused.
    fn image(self) -> YCbCrImage
        ensures { result ≡ image_of (shot_of self.entry) }
    {
        let strides = self.planes.strides;
        YCbCrImage {
            width: self.width,
            height: self.height,
            kind: self.kind,
            y: plane_of(self.planes.y, strides.y, self.depths.y),
            cb: plane_of(self.planes.cb, strides.cb, self.depths.cb),
            cr: plane_of(self.planes.cr, strides.cr, self.depths.cr),
        }
    }
}

// The length of the units of both parameter sets.
fn sets_len(s: Session) -> usize
    requires { accepted (sequence_of s) ≡ true }
    ensures { (result ≡ length (sets (sequence_of s))) × (result ≤ sets_most) }
{
    let sps = parameter_sets::sps(s, 10);
    let pps = parameter_sets::pps();
    let a = count::count_slice(&sps.bytes[..], 0, sps.len, 0);
    let b = count::count_slice(&pps[..], 0, 3, 0);
    10 + a.n + b.n
}

// Writes the units of both parameter sets from the first byte of the output on, and answers the place behind them.
fn put_sets(s: Session, out: &mut [u8]) -> usize
    requires s_value { accepted (sequence_of s) ≡ true }
    requires s_in_bounds { length (sets (sequence_of s)) ≤ length out.old }
    ensures { Laid out.old 0 (sets (sequence_of s)) out.new result }
{
    let sps = parameter_sets::sps(s, 10);
    let pps = parameter_sets::pps();
    let a = unit::open_unit(out, 0, 0x67);
    let b = fast::put_slice(&sps.bytes[..], 0, sps.len, out, a);
    unit::put_unit(0x68, &pps[..], out, b)
}

// The most that a picture's unit can be: an escape has at most half as many bytes again as its payload.
#[tactic(auto, using(slice::specs::Picture::length_most), unfolding(crate::specs::Room::picture_most))]
fn picture_most(s: Session) -> usize
    requires { Fine (sequence_of s) }
    ensures { result ≡ picture_most (sequence_of s) }
{
    let n = slice::payload_len(s);
    5 + n + n / 2
}

// A length of the output with which no call is refused with 9, whatever the samples, and no picture is counted first (`lacking`); 0 for a size that no call
// accepts. (A number and no Option: C's reelpony_room answers it, and `room_of` says it.)
#[tactic(auto, using(ycbcr_image::proofs::Accepted::fine, crate::specs::Room::most_few), unfolding(crate::specs::Room::room_of))]
pub fn room(s: Session) -> usize
    ensures { result ≡ room_of (sequence_of s) }
{
    if !s.is_accepted() {
        return 0;
    }
    SETS_MOST + picture_most(s)
}

// A picture that passes the refusals: its planes, and the session that it begins. slice has such a type of its own: its public functions ask for what this one
// holds (docs/ANSWERS.md), and so take the parts.
#[derive(Clone, Copy)]
struct Admitted<'a> {
    planes: Planes<'a>,
    session: Session,
    ghost ready: { Ready (sequence_of session) (lends_in planes) } by { Ready-prop (sequence_of session) (lends_in planes) },
}

impl Admitted<'_> {
    // The length of its unit.
    #[tactic(auto, using(crate::specs::Code::picture_as, crate::specs::Room::picture_few))]
    fn unit_len(&self) -> usize
        ensures { result ≡ length (picture_bytes (sequence_of self.now.session) (lends_in self.now.planes)) }
    {
        5 + slice::count::escaped_len(self.planes, self.session)
    }

    // The length that is needed where `before` bytes and its unit are to be written; None where there is room. Where there is room for the most that the
    // unit can be nothing is counted.
    #[tactic(auto, using(crate::specs::Room::most_few, crate::specs::Room::picture_within, crate::specs::Room::picture_few), unfolding(crate::specs::Code::lack))]
    fn lacking(&self, before: usize, room: usize) -> Option<usize>
        requires { before ≤ sets_most }
        ensures { result ≡ lack (before + length (picture_bytes (sequence_of self.now.session) (lends_in self.now.planes))) room }
    {
        let most = before + picture_most(self.session);
        if most <= room {
            return None;
        }
        let need = before + self.unit_len();
        if need <= room {
            return None;
        }
        Some(need)
    }

    // Writes its unit at the place `at`, and answers the place behind it.
    fn put(&self, out: &mut [u8], at: usize) -> usize
        requires { at + length (picture_bytes (sequence_of self.now.session) (lends_in self.now.planes)) ≤ length out.old }
        ensures { Laid out.old at (picture_bytes (sequence_of self.now.session) (lends_in self.now.planes)) out.new result }
    {
        let a = unit::open_unit(out, at, 0x25);
        slice::write::put_picture(self.planes, self.session, out, a)
    }
}

// The start call: writes the parameter sets and the first picture, and begins a session.
pub fn start(picture: Picture, out: &mut [u8]) -> Result<Written, EncodeError>
    ensures value { result ≡ start_of (shot_of picture.entry) out.old }
    ensures out_after { out.new ≡ start_out (shot_of picture.entry) out.old }
{
    let image = picture.image();
    image.check_start()?;
    let session = image.session();
    let admitted = Admitted {
        planes: picture.planes,
        session,
    };
    let before = sets_len(session);
    if let Some(need) = admitted.lacking(before, out.len()) {
        return Err(EncodeError::NoRoom(need));
    }
    let at = put_sets(session, out);
    let length = admitted.put(out, at);
    Ok(Written { session, length })
}

// The next call: writes one more picture in the session held. Between its steps and those of `start` only the sets differ; they stand where they are written.
pub fn next(held: Session, picture: Picture, out: &mut [u8]) -> Result<Written, EncodeError>
    ensures value { result ≡ next_of held (shot_of picture.entry) out.old }
    ensures out_after { out.new ≡ next_out held (shot_of picture.entry) out.old }
{
    let image = picture.image();
    image.check_next(held)?;
    let admitted = Admitted {
        planes: picture.planes,
        session: image.session(),
    };
    if let Some(need) = admitted.lacking(0, out.len()) {
        return Err(EncodeError::NoRoom(need));
    }
    let length = admitted.put(out, 0);
    Ok(Written {
        session: held,
        length,
    })
}
