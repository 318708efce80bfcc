// A picture's escaped payload written at a place of the output: each macroblock is laid there as it is and escaped where it stands.
ghost use Rattle.std.specs.Prelude.{◌≡◌, ◌+◌, ◌*◌, ◌≤◌, ◌<◌, length};
ghost use Rattle.nal_unit.specs.Escape.{esc_from};
ghost use Rattle.nal_unit.specs.EscapeCode.{counted};
ghost use Rattle.nal_unit.specs.PutCode.{Put};
ghost use Rattle.ycbcr_image.specs.Sizes.{sequence_of, pic_width_in_mbs, frame_height_in_mbs};
ghost use Rattle.slice.specs.Cat.{cat};
ghost use Rattle.slice.specs.Picture.{picture_of};
ghost use Rattle.slice.specs.Macroblocks.{lends_in, Ready, macroblock_in, row_in, at_once};

use crate::picture::Picture;
use crate::{Planes, macroblock};
use nal_unit::fast;
use ycbcr_image::Session;

impl Picture<'_> {
    // How many macroblocks are laid at once: a kilobyte of samples, one macroblock at least.
    #[tactic(auto, using(crate::specs::Macroblocks::once), unfolding(crate::specs::Macroblocks::at_once))]
    fn at_once(&self) -> usize
        ensures { result ≡ at_once (sequence_of self.now.s).form }
    {
        1024 / self.s.mb_bytes()
    }

    // Writes n macroblocks of row my, the first in column mx: all are laid before they are tested and escaped where they stand, since a test of bytes that were
    // only just laid has to wait for them.
    fn put_some(&self, my: usize, mx: usize, n: usize, out: &mut [u8], at: usize) -> usize
        requires my_bound { (my < frame_height_in_mbs (sequence_of self.now.s)) × (mx + n ≤ pic_width_in_mbs (sequence_of self.now.s)) }
        requires n_bound { n ≤ at_once (sequence_of self.now.s).form }
        requires le_at { 2 ≤ at }
        requires n_in_bounds { at + length (esc_from (counted out.old at) (cat (macroblock_in (sequence_of self.now.s) (lends_in self.now.planes)) (my * pic_width_in_mbs (sequence_of self.now.s) + mx) n)) ≤ length out.old }
        ensures { Put out.old at (cat (macroblock_in (sequence_of self.now.s) (lends_in self.now.planes)) (my * pic_width_in_mbs (sequence_of self.now.s) + mx) n) out.new result }
    {
        let end = macroblock::macroblocks(self.planes, self.s, my, mx, n, out, at);
        fast::mend(out, at, end - at)
    }

    // Writes the macroblocks of row my, some at a time.
    fn put_row(&self, my: usize, out: &mut [u8], at: usize) -> usize
        requires my_bound { my < frame_height_in_mbs (sequence_of self.now.s) }
        requires le_at { 2 ≤ at }
        requires my_in_bounds { at + length (esc_from (counted out.old at) (row_in (sequence_of self.now.s) (lends_in self.now.planes) my)) ≤ length out.old }
        ensures { Put out.old at (row_in (sequence_of self.now.s) (lends_in self.now.planes) my) out.new result }
    {
        let mw = self.s.mbs_width();
        let n = self.at_once();
        let mut a = at;
        for mx in (0..mw).step_by(n) {
            a = self.put_some(my, mx, n.min(mw - mx), out, a);
        }
        a
    }

    // Writes all macroblocks of a picture.
    fn put_rows(&self, out: &mut [u8], at: usize) -> usize
        requires le_at { 2 ≤ at }
        requires s_in_bounds { at + length (esc_from (counted out.old at) (cat (row_in (sequence_of self.now.s) (lends_in self.now.planes)) 0 (frame_height_in_mbs (sequence_of self.now.s)))) ≤ length out.old }
        ensures { Put out.old at (cat (row_in (sequence_of self.now.s) (lends_in self.now.planes)) 0 (frame_height_in_mbs (sequence_of self.now.s))) out.new result }
    {
        let mh = self.s.mbs_height();
        let mut a = at;
        for my in 0..mh {
            a = self.put_row(my, out, a);
        }
        a
    }
}

// Writes a picture's escaped payload at the place `at` of the output, behind the header byte of its unit, and answers the place behind it.
pub fn put_picture(planes: Planes, s: Session, out: &mut [u8], at: usize) -> usize
    requires ready { Ready (sequence_of s) (lends_in planes) }
    requires le_at { 2 ≤ at }
    requires strides_in_bounds { at + length (esc_from (counted out.old at) (picture_of (sequence_of s) (lends_in planes))) ≤ length out.old }
    ensures { Put out.old at (picture_of (sequence_of s) (lends_in planes.entry)) out.new result }
{
    let a = Picture { planes, s }.put_rows(out, at);
    fast::put_slice(b"\x80", 0, 1, out, a)
}
