// The picture's slice (lib.rs: SliceHeader, MacroblockType, macroblock; ITU-T H.264 7.3.3 to 7.3.5): its payload from the lent planes, counted
// and written macroblock by macroblock, with no payload kept.
#![tactic(auto)]

pub mod count;
pub mod macroblock;
mod picture;
pub mod write;

ghost use Rattle.std.specs.Prelude.{◌≡◌};
ghost use Rattle.ycbcr_image.specs.Sizes.{sequence_of};
ghost use Rattle.ycbcr_image.specs.Accepted.{Fine};
ghost use Rattle.slice.specs.Picture.{picture_length};

use ycbcr_image::Session;

// The bytes from one row to the next in each lent plane.
#[derive(Clone, Copy, Debug, PartialEq, Eq)]
pub struct Strides {
    pub y: usize,
    pub cb: usize,
    pub cr: usize,
}

// The lent planes of a picture.
#[derive(Clone, Copy, Debug, PartialEq, Eq)]
pub struct Planes<'a> {
    pub y: &'a [u8],
    pub cb: &'a [u8],
    pub cr: &'a [u8],
    pub strides: Strides,
}

// The length of a picture's payload: four bytes of header, two before each other macroblock, the samples, the last byte.
#[tactic(auto, using(crate::specs::Picture::length_by), unfolding(crate::specs::Picture::picture_length))]
pub fn payload_len(s: Session) -> usize
    requires { Fine (sequence_of s) }
    ensures { result ≡ picture_length (sequence_of s) }
{
    3 + s.mbs_height() * s.mbs_width() * (2 + s.mb_bytes())
}
