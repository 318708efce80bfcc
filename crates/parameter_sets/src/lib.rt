// The parameter sets (lib.rs: Sps, Pps, Vui, ProfileIdc; ITU-T H.264 7.3.2.1.1, 7.3.2.2 and E.1.1): their payloads, written and read back.
// A payload is written into 32 bytes of zeros, a few fields a method. What takes a Session first is a function and no method: the type is ycbcr_image's.
#![tactic(auto)]

ghost use Rattle.std.specs.Prelude.{◌≡◌, true, ◌+◌, ◌-◌, ◌*◌, ◌^◌, ◌≤◌, eqb, length, get_or};
ghost use Rattle.lists.specs.Every.{Below};
ghost use Rattle.lists.specs.Test.{same};
ghost use Rattle.bits.specs.Bits.{low_bits, bits_of, bit_count, BitsPut};
ghost use Rattle.golomb.specs.Code.{ue};
ghost use Rattle.ycbcr_image.specs.Sizes.{sequence_of};
ghost use Rattle.ycbcr_image.specs.Refusals.{accepted};
ghost use Rattle.parameter_sets.specs.Sps.{profile_idc, chroma_fields, cropped, crop_fields, sps_payload};
ghost use Rattle.parameter_sets.specs.Split.{sps_tail};
ghost use Rattle.parameter_sets.specs.Pps.{pps_payload};
ghost use Rattle.parameter_sets.specs.Read.{form_in, width_place, number, behind, sizes_end, guessed, read_sps};
ghost use Rattle.parameter_sets.specs.Answers.{Holds, sps_read};
ghost use Rattle.parameter_sets.specs.Code.{head_fields, size_fields, cropping_of, sized, SizesIn, cropping_in};

use ycbcr_image::{BitDepth, Kind, Session};

// profile_idc, baseline, high or high444pp: the standard's number, which a payload carries; kinds are `s.kind` and `s.depth`.
#[tactic(auto, unfolding(crate::specs::Sps::profile_idc, ycbcr_image::specs::Form::mono))]
fn profile_idc(s: Session) -> u8
    ensures { result ≡ profile_idc (sequence_of s).form }
{
    match (s.kind, s.depth) {
        (_, BitDepth::Depth12) => 244,
        (Kind::Mono, BitDepth::Depth8) => 100,
        (Kind::Colour, BitDepth::Depth8) => 66,
    }
}

// The offsets of the cropping rectangle, in crop units.
#[derive(Clone, Copy, Default)]
struct FrameCropping {
    pub left: u32,
    pub right: u32,
    pub top: u32,
    pub bottom: u32,
}

// Whether a padded size differs. That a size is accepted stays a clause, here and below: `sps` is public and asks it so, and a private type round a
// Session would be made there once and taken apart in each function.
#[tactic(auto, using(crate::proofs::Sizes::sides), unfolding(crate::specs::Sps::cropped))]
fn frame_cropping_flag(s: Session) -> bool
    requires { accepted (sequence_of s) ≡ true }
    ensures { result ≡ cropped (sequence_of s) }
{
    16 * s.mbs_width() != s.width as usize || 16 * s.mbs_height() != s.height as usize
}

// What is cropped of an accepted size, if anything is.
#[tactic(auto, using(crate::proofs::Sizes::sides), unfolding(crate::specs::Code::cropping_of, crate::specs::Sps::crop_right, crate::specs::Sps::crop_bottom))]
fn frame_cropping(s: Session) -> Option<FrameCropping>
    requires { accepted (sequence_of s) ≡ true }
    ensures { result ≡ cropping_of (sequence_of s) }
{
    let present = frame_cropping_flag(s);
    if !present {
        return None;
    }
    let right_samples = 16 * s.mbs_width() as u32 - s.width;
    let bottom_samples = 16 * s.mbs_height() as u32 - s.height;
    Some(FrameCropping {
        left: 0,
        right: right_samples / s.crop_unit_x(),
        top: 0,
        bottom: bottom_samples / s.crop_unit_y(),
    })
}

// A payload as far as it is written: its bytes, and the place of the next field. No heap, as in Payload.
struct Writer {
    bytes: [u8; 32],
    place: usize,
}

impl Writer {
    // Writes `v` in `n` bits.
    #[tactic(auto, unfolding(bits::specs::Bits::bit_count))]
    fn bits(&mut self, n: usize, v: u64)
        requires { (n ≤ 64) × (self.old.place + n ≤ 256) }
        ensures { BitsPut self.old.bytes self.old.place (low_bits n v) self.new.bytes self.new.place }
    {
        self.place = bits::put_bits(&mut self.bytes, self.place, n, v);
    }

    // Writes the code of `x`.
    #[tactic(auto, unfolding(bits::specs::Bits::bit_count))]
    fn ue(&mut self, x: u32)
        requires { (x ≤ 2 ^ 32 - 2) × (self.old.place + length (ue x) ≤ 256) }
        ensures { BitsPut self.old.bytes self.old.place (ue x) self.new.bytes self.new.place }
    {
        self.place = golomb::put_ue(&mut self.bytes, self.place, x);
    }

    // profile_idc, the constraint flags, level_idc and seq_parameter_set_id.
    #[tactic(auto, using(crate::proofs::Fields::lengths))]
    fn head(&mut self, s: Session, level: u8)
        requires { self.old.place + length (head_fields level (sequence_of s).form) ≤ 256 }
        ensures { BitsPut self.old.bytes self.old.place (head_fields level (sequence_of s).form) self.new.bytes self.new.place }
    {
        self.bits(8, profile_idc(s) as u64);
        self.bits(8, 0);
        self.bits(8, level as u64);
        self.ue(0);
    }

    // What profiles 100 and 244 carry beside: the chroma format and the depths.
    #[tactic(auto, using(crate::proofs::Fields::lengths))]
    fn chroma(&mut self, s: Session)
        requires { self.old.place + length (chroma_fields (sequence_of s).form) ≤ 256 }
        ensures { BitsPut self.old.bytes self.old.place (chroma_fields (sequence_of s).form) self.new.bytes self.new.place }
    {
        if profile_idc(s) == 66 {
            return;
        }
        let bit_depth_minus8 = s.depth.num_bits() - 8;
        self.ue(s.kind.chroma_format_idc());
        // bit_depth_luma_minus8 and bit_depth_chroma_minus8
        self.ue(bit_depth_minus8);
        self.ue(bit_depth_minus8);
        // qpprime_y_zero_transform_bypass_flag and seq_scaling_matrix_present_flag
        self.bits(2, 0);
    }

    // The codes and flags that are fixed, and the sizes in macroblocks.
    #[tactic(auto, using(crate::proofs::Fields::lengths, crate::proofs::Sizes::sides))]
    fn sizes(&mut self, s: Session)
        requires { (accepted (sequence_of s) ≡ true) × (self.old.place + length (size_fields (sequence_of s)) ≤ 256) }
        ensures { BitsPut self.old.bytes self.old.place (size_fields (sequence_of s)) self.new.bytes self.new.place }
    {
        let pic_width_in_mbs_minus1 = (s.mbs_width() - 1) as u32;
        let pic_height_in_map_units_minus1 = (s.mbs_height() - 1) as u32;
        // log2_max_frame_num_minus4, pic_order_cnt_type, log2_max_pic_order_cnt_lsb_minus4 and max_num_ref_frames, each a code of 0, and
        // gaps_in_frame_num_value_allowed_flag
        self.bits(5, 30);
        self.ue(pic_width_in_mbs_minus1);
        self.ue(pic_height_in_map_units_minus1);
        // frame_mbs_only_flag and direct_8x8_inference_flag
        self.bits(2, 2);
    }

    // frame_cropping_flag, and the offsets where they are present.
    #[tactic(auto, using(crate::proofs::Fields::lengths), unfolding(crate::specs::Code::cropping_of))]
    fn cropping(&mut self, s: Session)
        requires { (accepted (sequence_of s) ≡ true) × (self.old.place + length (crop_fields (sequence_of s)) ≤ 256) }
        ensures { BitsPut self.old.bytes self.old.place (crop_fields (sequence_of s)) self.new.bytes self.new.place }
    {
        match frame_cropping(s) {
            None => self.bits(1, 0),
            Some(crop) => {
                self.bits(1, 1);
                self.ue(crop.left);
                self.ue(crop.right);
                self.ue(crop.top);
                self.ue(crop.bottom);
            }
        }
    }
}

// vui_parameters_present_flag, the VUI and rbsp_stop_one_bit. Of the VUI video_signal_type_present_flag and video_full_range_flag are set and
// video_format is 5; every other flag is 0. No method: only of a lent slice it is known that its bytes are below 256, as `sps` needs at the end.
#[tactic(auto, using(crate::proofs::Fields::lengths))]
fn put_vui(payload: &mut [u8], place: usize) -> usize
    requires { place + length sps_tail ≤ bit_count payload.old }
    ensures bits { BitsPut payload.old place sps_tail payload.new result }
    ensures bytes { Below 256 payload.new }
{
    bits::put_bits(payload, place, 16, 0x9B01)
}

// A payload: the first `len` of the bytes, and zeros behind them. No heap: fixed bytes with a length. Two are compared nowhere.
#[derive(Clone, Copy)]
pub struct Payload {
    pub bytes: [u8; 32],
    pub len: usize,
}

// The payload of the sequence parameter set of an accepted size.
pub fn sps(s: Session, level: u8) -> Payload
    requires { accepted (sequence_of s) ≡ true }
    ensures { Holds result (sps_payload level (sequence_of s)) }
{
    let mut writer = Writer {
        bytes: [0; 32],
        place: 0,
    };
    writer.head(s, level);
    writer.chroma(s);
    writer.sizes(s);
    writer.cropping(s);
    let Writer { mut bytes, place } = writer;
    let end = put_vui(&mut bytes, place);
    Payload {
        bytes,
        len: end.div_ceil(8),
    }
}

// The payload of the picture parameter set: every field is fixed.
#[tactic(auto, using(crate::specs::Pps::pps_is))]
pub fn pps() -> [u8; 3]
    ensures { result ≡ pps_payload }
{
    [0xCE, 0x38, 0x80]
}

// ---- reading

// Whether the payload is that of the picture parameter set.
#[tactic(auto, using(crate::proofs::Equal::pointwise_same))]
pub fn is_pps(payload: &[u8]) -> bool
    ensures { result ≡ same payload.now pps_payload }
{
    payload == pps().as_slice()
}

// Payload and place stay two parameters below: each place is computed, so that a `BitReader` would be made for one reading.

// The number of the code at a place and the place behind it; zeros where no code stands, as the definition `guessed` says: what is read is compared as a whole.
fn code_at(payload: &[u8], place: usize) -> (u32, usize)
    ensures { (result.0 ≡ number payload.now place) × (result.1 ≡ behind payload.now place) }
{
    golomb::read_ue(payload, place).unwrap_or((0, 0))
}

// Whether the bit at a place is set, which none behind the end is.
#[tactic(auto, using(crate::proofs::Read::bit_past))]
fn flag_at(payload: &[u8], place: usize) -> bool
    ensures { result ≡ eqb (get_or (bits_of payload.now) place 0) 1 }
{
    place / 8 < payload.len() && bits::bit_at(payload, place) == 1
}

// What the profile, and the bit that chroma_format_idc begins with, say of a picture of this size.
#[tactic(auto, unfolding(crate::specs::Read::form_by))]
fn form_in(payload: &[u8], width: u32, height: u32) -> Session
    ensures { sequence_of result ≡ sized width height (form_in payload.now) }
{
    let (kind, depth) = match (payload.first(), flag_at(payload, 25)) {
        (Some(66), _) => (Kind::Colour, BitDepth::Depth8),
        (Some(100), _) => (Kind::Mono, BitDepth::Depth8),
        (_, true) => (Kind::Mono, BitDepth::Depth12),
        (_, false) => (Kind::Colour, BitDepth::Depth12),
    };
    Session {
        width,
        height,
        kind,
        depth,
    }
}

// The place of pic_width_in_mbs_minus1 in a payload of this form: behind 30 bits, and the 5, 0, 13 or 15 of the chroma fields.
#[tactic(auto, unfolding(crate::specs::Read::width_place, crate::specs::Sps::chroma_fields, crate::specs::Sps::profile_idc, ycbcr_image::specs::Form::mono, golomb::specs::Code::ue, golomb::specs::Code::num_bits, golomb::specs::Code::digits_in, bits::specs::Bits::low_bits))]
fn width_place(s: Session) -> usize
    ensures { result ≡ width_place (sequence_of s).form }
{
    match (s.depth, s.kind) {
        (BitDepth::Depth8, Kind::Colour) => 30,
        (BitDepth::Depth8, Kind::Mono) => 35,
        (BitDepth::Depth12, Kind::Mono) => 43,
        (BitDepth::Depth12, Kind::Colour) => 45,
    }
}

// pic_width_in_mbs_minus1, pic_height_in_map_units_minus1 and the place behind them.
#[derive(Clone, Copy)]
struct SizeCodes {
    pub across: u32,
    pub down: u32,
    pub behind: usize,
}

// The sizes' codes in a payload.
#[tactic(auto, unfolding(crate::specs::Read::sizes_end))]
fn sizes_in(payload: &[u8]) -> SizeCodes
    ensures { SizesIn payload.now result }
{
    // the form alone is asked for: of what size is not known yet
    let place = width_place(form_in(payload, 0, 0));
    let (across, place_down) = code_at(payload, place);
    let (down, behind) = code_at(payload, place_down);
    SizeCodes {
        across,
        down,
        behind,
    }
}

// The cropping that the payload says, if any, its flag two flags behind the sizes.
#[tactic(auto, using(crate::proofs::Read::places), unfolding(crate::specs::Code::cropping_in, crate::specs::Read::crop_in, crate::specs::Read::right_in, crate::specs::Read::bottom_in))]
fn cropping_in(payload: &[u8], place: usize) -> Option<FrameCropping>
    requires { (length payload.now ≤ 32) × (place ≡ sizes_end payload.now) }
    ensures { result ≡ cropping_in payload.now }
{
    if !flag_at(payload, place + 2) {
        return None;
    }
    let (right, left) = code_at(payload, place + 4);
    let (bottom, _) = code_at(payload, left + 1);
    Some(FrameCropping {
        left: 0,
        right,
        top: 0,
        bottom,
    })
}

// The samples of a row or column of macroblocks that are left when `crop` units are cut off; none where that is more than there are.
fn visible(mbs_minus1: u32, unit: u32, crop: u32) -> u64
    requires { unit ≤ 2 }
    ensures { result ≡ 16 * (mbs_minus1 + 1) - unit * crop }
{
    let padded = 16 * (mbs_minus1 as u64 + 1);
    padded.saturating_sub(unit as u64 * crop as u64)
}

// A size that may be none that a picture has.
#[derive(Clone, Copy)]
struct Size {
    pub width: u64,
    pub height: u64,
}

// The size that the payload's fields say, whatever they are.
#[tactic(auto, using(crate::proofs::Sizes::sides), unfolding(crate::specs::Read::guessed, crate::specs::Code::cropping_in))]
fn guess(payload: &[u8]) -> Size
    requires { length payload.now ≤ 32 }
    ensures { (result.width ≡ (guessed payload.now).width) × (result.height ≡ (guessed payload.now).height) }
{
    let form = form_in(payload, 0, 0);
    let sizes = sizes_in(payload);
    // offsets that are not present are 0
    let crop = cropping_in(payload, sizes.behind).unwrap_or_default();
    Size {
        width: visible(sizes.across, form.crop_unit_x(), crop.right),
        height: visible(sizes.down, form.crop_unit_y(), crop.bottom),
    }
}

// Reads a sequence parameter set: the payload is of the form that its fields say, or of none.
#[tactic(auto, using(crate::proofs::Equal::pointwise_same, crate::specs::Code::read_none))]
pub fn read_sps(payload: &[u8], level: u8) -> Option<Session>
    ensures { sps_read result ≡ read_sps level payload.now }
{
    if payload.len() < 7 || 32 < payload.len() {
        return None;
    }
    let size = guess(payload);
    let width = u32::try_from(size.width).ok()?;
    let height = u32::try_from(size.height).ok()?;
    let s = form_in(payload, width, height);
    if !s.is_accepted() {
        return None;
    }
    let form = sps(s, level);
    (payload == &form.bytes[..form.len]).then_some(s)
}
