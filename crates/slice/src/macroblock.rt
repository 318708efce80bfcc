// A macroblock's bytes laid as they are at a place of a buffer (lib.rs: macroblock; ITU-T H.264 7.3.5): what stands before the samples, then the
// block of each plane, row by row. Whether anything is to be escaped is asked of the whole macroblock afterwards.
// What lays a macroblock is compiled into its loop (inline): as calls, writing takes a fifth longer and counting a third.
ghost use Rattle.std.specs.Prelude.{◌≡◌, ◌+◌, ◌*◌, ◌≤◌, ◌<◌, length};
ghost use Rattle.lists.specs.Fill.{splice};
ghost use Rattle.lists.specs.Part.{part};
ghost use Rattle.ycbcr_image.specs.Form.{block_height, block_row_bytes, block_bytes, mb_bytes};
ghost use Rattle.ycbcr_image.specs.Sizes.{sequence_of, pic_width_in_mbs, frame_height_in_mbs};
ghost use Rattle.slice.specs.Cat.{cat, rows_of};
ghost use Rattle.slice.specs.Layout.{head};
ghost use Rattle.slice.specs.Header.{header_of};
ghost use Rattle.slice.specs.Laid.{Laid};
ghost use Rattle.slice.specs.Macroblocks.{lend, lends_in, Ready, Inside, block_in, samples_at, macroblock_in};

use crate::Planes;
use crate::picture::Picture;
use nal_unit::rows;
use ycbcr_image::Session;

// Lays h rows of W bytes, the first from the place p of s and each `stride` behind the last, and answers the place behind them.
#[inline(always)]
fn copy_rows<const W: usize>(
    s: &[u8],
    p: usize,
    stride: usize,
    h: usize,
    out: &mut [u8],
    at: usize,
) -> usize
    requires w_in_bounds { (p + h * stride + W ≤ length s.now + stride) × (h * stride ≤ length s.now) }
    requires w_in_bounds_2 { at + h * W ≤ length out.old }
    ensures { Laid out.old at (cat (rows_of s.now stride p W) 0 h) out.new result }
{
    for k in 0..h {
        rows::copy_fixed::<W>(s, p + k * stride, out, at + k * W);
    }
    at + h * W
}

// The same of rows of any width. One loop for both was tried: where the width is a value, rows of 16 bytes take half as long again.
fn copy_any_rows(
    s: &[u8],
    p: usize,
    stride: usize,
    w: usize,
    h: usize,
    out: &mut [u8],
    at: usize,
) -> usize
    requires w_in_bounds { (p + h * stride + w ≤ length s.now + stride) × (h * stride ≤ length s.now) }
    requires w_in_bounds_2 { at + h * w ≤ length out.old }
    ensures { Laid out.old at (cat (rows_of s.now stride p w) 0 h) out.new result }
{
    for k in 0..h {
        rows::copy(s, p + k * stride, w, out, at + k * w);
    }
    at + h * w
}

// The same of either: for each width that a block has there is a loop of its own, since only rows of a width that is known where the code is compiled are fast. The
// parameters and what is required of them are those that docs/ANSWERS.md names.
#[inline(always)]
pub fn lay_rows(
    s: &[u8],
    p: usize,
    stride: usize,
    w: usize,
    h: usize,
    out: &mut [u8],
    at: usize,
) -> usize
    requires w_in_bounds { (p + h * stride + w ≤ length s.now + stride) × (h * stride ≤ length s.now) }
    requires w_in_bounds_2 { at + h * w ≤ length out.old }
    ensures { Laid out.old at (cat (rows_of s.now stride p w) 0 h) out.new result }
{
    match w {
        8 => copy_rows::<8>(s, p, stride, h, out, at),
        12 => copy_rows::<12>(s, p, stride, h, out, at),
        16 => copy_rows::<16>(s, p, stride, h, out, at),
        24 => copy_rows::<24>(s, p, stride, h, out, at),
        _ => copy_any_rows(s, p, stride, w, h, out, at),
    }
}

// Lays the block of plane p, which lies in a, in macroblock row my and column mx. Plane and stride are given beside the number: a method that finds them by it
// was tried, and counting a picture took an eighth longer.
#[inline(always)]
fn block(
    a: &[u8],
    stride: usize,
    s: Session,
    p: u32,
    my: usize,
    mx: usize,
    out: &mut [u8],
    at: usize,
) -> usize
    requires inside { Inside (lend a.now stride) (block_row_bytes (sequence_of s).form p) (block_height (sequence_of s).form p) my mx }
    requires p_in_bounds { at + block_bytes (sequence_of s).form p ≤ length out.old }
    ensures { Laid out.old at (block_in (sequence_of s).form p (lend a.now stride) my mx) out.new result }
{
    let w = s.block_row_bytes(p);
    let h = s.mb_height(p);
    lay_rows(a, my * (h * stride) + mx * w, stride, w, h, out, at)
}

impl Picture<'_> {
    // Lays the samples of the macroblock in row my and column mx. In monochrome the blocks of Cb and Cr are empty.
    #[inline(always)]
    fn samples(&self, my: usize, mx: usize, out: &mut [u8], at: usize) -> usize
        requires my_bound { (my < frame_height_in_mbs (sequence_of self.now.s)) × (mx < pic_width_in_mbs (sequence_of self.now.s)) }
        requires s_in_bounds { at + mb_bytes (sequence_of self.now.s).form ≤ length out.old }
        ensures { Laid out.old at (samples_at (sequence_of self.now.s) (lends_in self.now.planes) my mx) out.new result }
    {
        let Planes { y, cb, cr, strides } = self.planes;
        let a = block(y, strides.y, self.s, 0, my, mx, out, at);
        let b = block(cb, strides.cb, self.s, 1, my, mx, out, a);
        block(cr, strides.cr, self.s, 2, my, mx, out, b)
    }
}

// Lays what stands before the samples of macroblock i: before those of the first the slice header and its mb_type, before the others mb_type alone.
#[inline(always)]
fn head(out: &mut [u8], at: usize, i: usize) -> usize
    requires { at + length (head (header_of 0 0) i) ≤ length out.old }
    ensures { Laid out.old at (head (header_of 0 0) i) out.new result }
{
    if i == 0 {
        rows::copy(b"\x88\x84\x28\x68", 0, 4, out, at);
        return at + 4;
    }
    rows::copy(b"\x0d\0", 0, 2, out, at);
    at + 2
}

// Lays the macroblock in row my and column mx, and answers the place behind it.
#[inline(always)]
pub fn macroblock(
    planes: Planes,
    s: Session,
    my: usize,
    mx: usize,
    out: &mut [u8],
    at: usize,
) -> usize
    requires ready { Ready (sequence_of s) (lends_in planes) }
    requires my_bound { (my < frame_height_in_mbs (sequence_of s)) × (mx < pic_width_in_mbs (sequence_of s)) }
    requires mx_in_bounds { at + length (macroblock_in (sequence_of s) (lends_in planes) (my * pic_width_in_mbs (sequence_of s) + mx)) ≤ length out.old }
    ensures { Laid out.old at (macroblock_in (sequence_of s) (lends_in planes.entry) (my * pic_width_in_mbs (sequence_of s) + mx)) out.new result }
{
    let mw = s.mbs_width();
    let a = head(out, at, my * mw + mx);
    Picture { planes, s }.samples(my, mx, out, a)
}

// Lays n macroblocks of row my, the first in column mx.
pub fn macroblocks(
    planes: Planes,
    s: Session,
    my: usize,
    mx: usize,
    n: usize,
    out: &mut [u8],
    at: usize,
) -> usize
    requires ready { Ready (sequence_of s) (lends_in planes) }
    requires my_bound { (my < frame_height_in_mbs (sequence_of s)) × (mx + n ≤ pic_width_in_mbs (sequence_of s)) }
    requires n_in_bounds { at + length (cat (macroblock_in (sequence_of s) (lends_in planes)) (my * pic_width_in_mbs (sequence_of s) + mx) n) ≤ length out.old }
    ensures { Laid out.old at (cat (macroblock_in (sequence_of s) (lends_in planes.entry)) (my * pic_width_in_mbs (sequence_of s) + mx) n) out.new result }
{
    let mut a = at;
    for k in 0..n {
        a = macroblock(planes, s, my, mx + k, out, a);
    }
    a
}
