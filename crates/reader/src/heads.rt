// Whether a picture's payload is formed as the writer forms it (refusal 18): the slice header with the first mb_type, what stands before every other
// macroblock, the last byte. No sample is looked at.
ghost use Rattle.std.specs.Prelude.{◌≡◌, ◌&&◌, ◌+◌, ◌-◌, ◌*◌, ◌≤◌, ◌<◌, eqb, length, get_or};
ghost use Rattle.lists.specs.Stands.{begins};
ghost use Rattle.lists.specs.Test.{all_below};
ghost use Rattle.nal_unit.specs.Kept.{kept, ins_count};
ghost use Rattle.slice.specs.Formed.{head_stands, right};
ghost use Rattle.slice.specs.Header.{header_of};
ghost use Rattle.slice.specs.Picture.{mbs_in, picture_length};
ghost use Rattle.ycbcr_image.specs.Form.{mb_bytes};
ghost use Rattle.ycbcr_image.specs.Sizes.{sequence_of};
ghost use Rattle.ycbcr_image.specs.Accepted.{Fine};
ghost use Rattle.reader.specs.Units.{IsUnit, payload_of, StandsIn};

use crate::unit::NalUnit;
use nal_unit::taking;
use ycbcr_image::Session;

impl NalUnit<'_> {
    // Whether the payload from the place p on begins with the bytes v.
    fn begins(self, p: usize, v: &[u8]) -> bool
        requires le_p { (2 ≤ p) × ((p ≤ self.end) × (self.end ≤ length self.take.now)) }
        requires v_in_bounds { length v.now ≤ length (kept self.take.now p self.end) }
        ensures { result ≡ begins v.now (kept self.entry.take.now p self.entry.end) }
    {
        let mut p = p;
        for b in v {
            if taking::byte_at(self.take, p, self.end) != *b {
                return false;
            }
            p = taking::past(self.take, p, self.end);
        }
        true
    }

    // Whether n macroblocks of `size` bytes of samples, the first of which begin at the place p, have their heads, and 80 stands behind the last.
    fn has_heads(self, calm: usize, p: usize, size: usize, n: usize) -> bool
        requires stands { StandsIn self 4 p }
        requires n_nonzero { (0 < n) × (length (payload_of self) + 1 ≡ 4 + n * (2 + size)) }
        requires e_value { ins_count self.take.now calm self.end ≡ 0 }
        ensures { result ≡ all_below (n - 1) (head_stands (header_of 0 0) size (payload_of self.entry)) && eqb (get_or (payload_of self.entry) (length (payload_of self.entry) - 1) 0) 128 }
    {
        let mut p = p;
        for _i in 0..n - 1 {
            p = taking::pass(self.take, p, self.end, calm, size);
            if !self.begins(p, b"\x0d\0") {
                return false;
            }
            p = taking::pass(self.take, p, self.end, calm, 2);
        }
        p = taking::pass(self.take, p, self.end, calm, size);
        taking::byte_at(self.take, p, self.end) == 128
    }

    // Whether header, heads and last byte of a payload of the exact length are right: what 18 looks at beside the length. No inserted byte stands in the unit
    // from the place `calm` on.
    pub fn is_right(self, calm: usize, q: Session) -> bool
        requires unit_at { IsUnit self }
        requires fine { (Fine (sequence_of q)) × (length (payload_of self) ≡ picture_length (sequence_of q)) }
        requires e_value { ins_count self.take.now calm self.end ≡ 0 }
        ensures { result ≡ right (header_of 0 0) (mb_bytes (sequence_of q).form) (mbs_in (sequence_of q)) (payload_of self.entry) }
    {
        let size = q.mb_bytes();
        let n = q.mbs_height() * q.mbs_width();
        if !self.begins(self.begin + 1, b"\x88\x84\x28\x68") {
            return false;
        }
        let p = taking::skip(self.take, self.begin + 1, self.end, 4);
        self.has_heads(calm, p, size, n)
    }
}
