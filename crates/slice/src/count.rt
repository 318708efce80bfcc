// The length of a picture's escaped payload, found without writing it: each macroblock is laid into a buffer of its own and counted there.
ghost use Rattle.std.specs.Prelude.{◌≡◌, ◌+◌, ◌*◌, ◌≤◌, ◌<◌, length};
ghost use Rattle.nal_unit.specs.Escape.{esc};
ghost use Rattle.nal_unit.specs.CountCode.{Counts};
ghost use Rattle.ycbcr_image.specs.Sizes.{sequence_of, pic_width_in_mbs, frame_height_in_mbs};
ghost use Rattle.slice.specs.Cat.{cat};
ghost use Rattle.slice.specs.Picture.{picture_of};
ghost use Rattle.slice.specs.Macroblocks.{lends_in, Ready, macroblock_in, row_in};

use crate::picture::Picture;
use crate::{Planes, macroblock};
use nal_unit::count;
use nal_unit::count::Count;
use ycbcr_image::Session;

impl Picture<'_> {
    // The macroblock in row my and column mx, after z counted zeros. No heap: it is laid into a fixed array, which has room for the longest.
    fn count_macroblock(&self, my: usize, mx: usize, z: usize) -> Count
        requires my_bound { (my < frame_height_in_mbs (sequence_of self.now.s)) × (mx < pic_width_in_mbs (sequence_of self.now.s)) }
        requires z_bound { z ≤ 2 }
        ensures { Counts z (macroblock_in (sequence_of self.now.s) (lends_in self.now.planes) (my * pic_width_in_mbs (sequence_of self.now.s) + mx)) result.n result.z }
    {
        let mut plain = [0u8; 580];
        let n = macroblock::macroblock(self.planes, self.s, my, mx, &mut plain[..], 0);
        count::count_slice(&plain[..], 0, n, z)
    }

    // The macroblocks of row my, after z counted zeros.
    fn count_row(&self, my: usize, z: usize) -> Count
        requires my_bound { my < frame_height_in_mbs (sequence_of self.now.s) }
        requires z_bound { z ≤ 2 }
        ensures { Counts z (row_in (sequence_of self.now.s) (lends_in self.now.planes) my) result.n result.z }
    {
        let mw = self.s.mbs_width();
        let mut row = Count { n: 0, z };
        for mx in 0..mw {
            let next = self.count_macroblock(my, mx, row.z);
            row = Count {
                n: row.n + next.n,
                z: next.z,
            };
        }
        row
    }

    // All macroblocks of a picture, from its first byte on.
    fn count_rows(&self) -> Count
        ensures { Counts 0 (cat (row_in (sequence_of self.now.s) (lends_in self.now.planes)) 0 (frame_height_in_mbs (sequence_of self.now.s))) result.n result.z }
    {
        let mh = self.s.mbs_height();
        let mut rows = Count { n: 0, z: 0 };
        for my in 0..mh {
            let next = self.count_row(my, rows.z);
            rows = Count {
                n: rows.n + next.n,
                z: next.z,
            };
        }
        rows
    }
}

// The length of a picture's escaped payload.
pub fn escaped_len(planes: Planes, s: Session) -> usize
    requires { Ready (sequence_of s) (lends_in planes) }
    ensures { result ≡ length (esc (picture_of (sequence_of s) (lends_in planes.entry))) }
{
    let r = Picture { planes, s }.count_rows();
    r.n + 1
}
