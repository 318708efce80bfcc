// A picture's visible samples, taken from its unit into lent planes with tight rows. A row of macroblocks without inserted bytes is taken line by line of
// each plane, so that a plane is written from its first byte to its last; so is one all samples of which are zero; another macroblock by macroblock.
// The planes y, cb and cr stay three parameters: of a value that holds the three each function would have to promise besides that it keeps its references.
ghost use Rattle.std.specs.Prelude.{◌≡◌, true, ℕ, ◌+◌, ◌*◌, ◌≤◌, ◌<◌, eqb, length, IfSome};
ghost use Rattle.nal_unit.specs.Kept.{ins_count};
ghost use Rattle.ycbcr_image.specs.Form.{planes, block_bytes, mb_bytes};
ghost use Rattle.ycbcr_image.specs.Sizes.{sequence_of, pic_width_in_mbs, frame_height_in_mbs, tight_length};
ghost use Rattle.ycbcr_image.specs.Accepted.{Fine, fine_props};
ghost use Rattle.slice.specs.Cat.{cat};
ghost use Rattle.slice.specs.Laid.{Laid};
ghost use Rattle.slice.specs.Picture.{picture_length, off_in};
ghost use Rattle.reader.specs.Units.{IsUnit, payload_of, StandsIn};
ghost use Rattle.reader.specs.Bands.{pieces, lines_of, Pieced, Banded};
ghost use Rattle.reader.specs.Samples.{RowsTook, BlockTook, head_place, block_place, Rooms, RowStands, DarkRow, PlanesTook};

use crate::unit::NalUnit;
use nal_unit::{rows, taking};
use slice::macroblock;
use ycbcr_image::Session;

// A unit that holds a picture of the size and kind q, with a payload of the exact length; no inserted byte stands in it from the place `calm` on.
#[derive(Clone, Copy)]
struct Coded<'a> {
    unit: NalUnit<'a>,
    calm: usize,
    q: Session,
    ghost fine: { Fine (sequence_of q) } by { Prim.hlevel fine_props },
    ghost exact: { length (payload_of unit) ≡ picture_length (sequence_of q) },
    ghost calm_at: { ins_count unit.take.now calm unit.end ≡ 0 },
}

impl Coded<'_> {
    ghost use Rattle.reader.specs.Rows.{Took};

    // Takes h rows of bw bytes, which stand in the payload from its byte n on, at the place p of the unit: of each the first w bytes, into the output from the
    // place `at` on, `step` bytes from row to row. Answers the place behind them. The numbers stay parameters: a value of them would be made and taken apart
    // for this one call.
    fn take_rows(
        self,
        p: usize,
        w: usize,
        bw: usize,
        step: usize,
        h: usize,
        out: &mut [u8],
        at: usize,
    ) -> usize
        ghost n: { ℕ }
        requires stands { StandsIn self.unit n p }
        requires w_le_bw { (w ≤ bw) × (n + h * bw ≤ length (payload_of self.unit)) }
        requires w_in_bounds { (at + h * step + w ≤ length out.old + step) × (h * step ≤ length out.old) }
        ensures { RowsTook self.entry.unit.take.now self.entry.unit.begin self.entry.unit.end n out.old at w bw step h out.new result }
    {
        let mut p = p;
        let mut a = at;
        for _y in 0..h {
            p = taking::take_row(self.unit.take, p, self.unit.end, w, out, a);
            p = taking::skip(self.unit.take, p, self.unit.end, bw - w);
            a += step;
        }
        p
    }

    // Takes what is visible of plane k's block in macroblock row my and column mx, which stands at the place p. Answers the place behind it. What k and its room
    // are is asked of each call, here and below: a plane with its number would be made for the one call.
    fn take_block(self, p: usize, k: u32, my: usize, mx: usize, out: &mut [u8]) -> usize
        requires stands { StandsIn self.unit (block_place (sequence_of self.q) (my * pic_width_in_mbs (sequence_of self.q) + mx) k) p }
        requires k_bound { (k < 3) × (k < planes (sequence_of self.q).form) }
        requires my_bound { (my < frame_height_in_mbs (sequence_of self.q)) × (mx < pic_width_in_mbs (sequence_of self.q)) }
        requires k_in_bounds { tight_length (sequence_of self.q) k ≤ length out.old }
        ensures { BlockTook self.entry.unit.take.now self.entry.unit.begin self.entry.unit.end (block_place (sequence_of self.entry.q) (my * pic_width_in_mbs (sequence_of self.entry.q) + mx) k) (sequence_of self.entry.q) k my mx out.old out.new result }
    {
        let bw = self.q.block_row_bytes(k);
        let bh = self.q.mb_height(k);
        let vb = self.q.visible_row_bytes(k);
        let vh = self.q.visible_rows(k);
        let w = bw.min(vb - mx * bw);
        let h = bh.min(vh - my * bh);
        let r = self.take_rows(p, w, bw, vb, h, out, my * bh * vb + mx * bw);
        taking::skip(self.unit.take, r, self.unit.end, (bh - h) * bw)
    }

    // Takes the visible samples of the macroblock in row my and column mx into the planes of its kind; what stands before its samples begins at the place p.
    // Answers the place behind it.
    fn take_macroblock(
        self,
        p: usize,
        my: usize,
        mx: usize,
        y: &mut [u8],
        cb: &mut [u8],
        cr: &mut [u8],
    ) -> usize
        requires stands { StandsIn self.unit (head_place (sequence_of self.q) (my * pic_width_in_mbs (sequence_of self.q) + mx)) p }
        requires my_bound { (my < frame_height_in_mbs (sequence_of self.q)) × (mx < pic_width_in_mbs (sequence_of self.q)) }
        requires rooms { Rooms (sequence_of self.q) y.old cb.old cr.old }
        ensures { Took self.entry (my * pic_width_in_mbs (sequence_of self.entry.q) + mx) (my * pic_width_in_mbs (sequence_of self.entry.q) + mx + 1) y.old y.new cb.old cb.new cr.old cr.new result }
    {
        let a = taking::skip(self.unit.take, p, self.unit.end, 2);
        let b = self.take_block(a, 0, my, mx, y);
        if self.q.is_monochrome() {
            return b;
        }
        let c = self.take_block(b, 1, my, mx, cb);
        self.take_block(c, 2, my, mx, cr)
    }
}

// A line of a plane as it stands in a row of macroblocks: `full` pieces of bw bytes, each `unit` behind the last, and the first `rest` bytes of one more.
#[derive(Clone, Copy)]
struct Pieces<'a> {
    s: &'a [u8],
    unit: usize,
    bw: usize,
    full: usize,
    rest: usize,
}

impl Pieces<'_> {
    // Lays the line the first piece of which begins at the place p. Answers the place behind it.
    fn line(self, p: usize, out: &mut [u8], at: usize) -> usize
        requires pieced { Pieced (length self.s.now) self.unit p self.bw self.full self.rest }
        requires rest_in_bounds { at + (self.full * self.bw + self.rest) ≤ length out.old }
        ensures { Laid out.old at (pieces self.entry.s.now self.entry.unit p self.entry.bw self.entry.full self.entry.rest) out.new result }
    {
        let a = macroblock::lay_rows(self.s, p, self.unit, self.bw, self.full, out, at);
        if self.rest == 0 {
            return a;
        }
        rows::copy(self.s, p + self.full * self.unit, self.rest, out, a);
        a + self.rest
    }

    // Lays h lines, each bw bytes behind the one before it.
    fn band(self, p: usize, h: usize, out: &mut [u8], at: usize) -> usize
        requires banded { Banded (length self.s.now) self.unit p self.bw self.full self.rest h }
        requires rest_in_bounds { at + h * (self.full * self.bw + self.rest) ≤ length out.old }
        ensures { Laid out.old at (cat (lines_of self.entry.s.now self.entry.unit p self.entry.bw self.entry.full self.entry.rest) 0 h) out.new result }
    {
        let mut a = at;
        for y in 0..h {
            a = self.line(p + y * self.bw, out, a);
        }
        a
    }
}

// Row my of macroblocks of a picture; what stands before the first one's samples begins at the place p of the unit.
#[derive(Clone, Copy)]
struct Row<'a> {
    coded: Coded<'a>,
    my: usize,
    p: usize,
    ghost my_bound: { my < frame_height_in_mbs (sequence_of coded.q) },
    ghost stands: { StandsIn coded.unit (head_place (sequence_of coded.q) (my * pic_width_in_mbs (sequence_of coded.q))) p },
}

impl Row<'_> {
    ghost use Rattle.reader.specs.Rows.{RowTook, BandTook, RowDark};

    // The bytes of the row in the payload.
    fn len(self) -> usize
        ensures { result ≡ pic_width_in_mbs (sequence_of self.entry.coded.q) * (2 + mb_bytes (sequence_of self.entry.coded.q).form) }
    {
        self.coded.q.mbs_width() * (2 + self.coded.q.mb_bytes())
    }

    // Takes the visible samples of the row. Answers the place behind it.
    fn take(self, y: &mut [u8], cb: &mut [u8], cr: &mut [u8]) -> usize
        requires rooms { Rooms (sequence_of self.coded.q) y.old cb.old cr.old }
        ensures { RowTook self.entry y.old y.new cb.old cb.new cr.old cr.new result }
    {
        if self.coded.calm <= self.p {
            return self.take_calm(y, cb, cr);
        }
        if let Some(r) = self.dark() {
            self.take_dark(y, cb, cr);
            return r;
        }
        if taking::calm(self.coded.unit.take, self.p, self.len()) {
            return self.take_calm(y, cb, cr);
        }
        self.take_mbs(y, cb, cr)
    }

    // The same, macroblock by macroblock.
    fn take_mbs(self, y: &mut [u8], cb: &mut [u8], cr: &mut [u8]) -> usize
        requires rooms { Rooms (sequence_of self.coded.q) y.old cb.old cr.old }
        ensures { RowTook self.entry y.old y.new cb.old cb.new cr.old cr.new result }
    {
        let mut p = self.p;
        for mx in 0..self.coded.q.mbs_width() {
            p = self.coded.take_macroblock(p, self.my, mx, y, cb, cr);
        }
        p
    }

    // The same where none of the row's bytes is an inserted one, line by line.
    fn take_calm(self, y: &mut [u8], cb: &mut [u8], cr: &mut [u8]) -> usize
        requires rooms { Rooms (sequence_of self.coded.q) y.old cb.old cr.old }
        requires q_value { eqb (ins_count self.coded.unit.take.now self.p (self.p + pic_width_in_mbs (sequence_of self.coded.q) * (2 + mb_bytes (sequence_of self.coded.q).form))) 0 ≡ true }
        ensures { RowTook self.entry y.old y.new cb.old cb.new cr.old cr.new result }
    {
        let q = self.coded.q;
        let luma = q.mb_height(0) * q.block_row_bytes(0);
        let chroma = q.mb_height(1) * q.block_row_bytes(1);
        self.take_band(0, 0, y);
        if !q.is_monochrome() {
            self.take_band(1, luma, cb);
            self.take_band(2, luma + chroma, cr);
        }
        self.p + self.len()
    }

    // Takes what is visible of plane k in the row, which stands in the unit as it does in the payload; `off` bytes of a macroblock stand before the plane's block.
    fn take_band(self, k: u32, off: usize, out: &mut [u8])
        requires row_stands { RowStands self.coded.unit.take.now (payload_of self.coded.unit) (sequence_of self.coded.q) (self.my * pic_width_in_mbs (sequence_of self.coded.q)) self.p }
        requires k_bound { (k < 3) × (k < planes (sequence_of self.coded.q).form) }
        requires off_value { off ≡ off_in (sequence_of self.coded.q).form k }
        requires k_in_bounds { tight_length (sequence_of self.coded.q) k ≤ length out.old }
        ensures { BandTook self.entry k out.old out.new }
    {
        let q = self.coded.q;
        let size = q.mb_bytes();
        let bw = q.block_row_bytes(k);
        let bh = q.mb_height(k);
        let vb = q.visible_row_bytes(k);
        let vh = q.visible_rows(k);
        let h = bh.min(vh - self.my * bh);
        let pieces = Pieces {
            s: self.coded.unit.take,
            unit: 2 + size,
            bw,
            full: vb / bw,
            rest: vb % bw,
        };
        pieces.band(self.p + 2 + off, h, out, self.my * bh * vb);
    }

    // The place behind the row where all its samples are found to be zero, None where they are not.
    fn dark(self) -> Option<usize>
        ensures { IfSome result (λ r. DarkRow self.entry.coded.unit.take.now self.entry.coded.unit.end (payload_of self.entry.coded.unit) (mb_bytes (sequence_of self.entry.coded.q).form) (head_place (sequence_of self.entry.coded.q) (self.entry.my * pic_width_in_mbs (sequence_of self.entry.coded.q))) (pic_width_in_mbs (sequence_of self.entry.coded.q)) r) }
    {
        let Coded { unit, calm, q } = self.coded;
        let size = q.mb_bytes();
        let mut p = self.p;
        for _mx in 0..q.mbs_width() {
            let b = taking::pass(unit.take, p, unit.end, calm, 2);
            p = taking::zeros(unit.take, b, unit.end, size)?;
        }
        Some(p)
    }

    // Takes the visible samples of such a row.
    fn take_dark(self, y: &mut [u8], cb: &mut [u8], cr: &mut [u8])
        requires dark { RowDark self }
        requires rooms { Rooms (sequence_of self.coded.q) y.old cb.old cr.old }
        ensures in_y { BandTook self.entry 0 y.old y.new }
        ensures in_cb { BandTook self.entry 1 cb.old cb.new }
        ensures in_cr { BandTook self.entry 2 cr.old cr.new }
    {
        self.zero_band(0, y);
        if self.coded.q.is_monochrome() {
            return;
        }
        self.zero_band(1, cb);
        self.zero_band(2, cr);
    }

    // Writes what is visible of plane k in such a row.
    fn zero_band(self, k: u32, out: &mut [u8])
        requires dark { RowDark self }
        requires k_bound { (k < 3) × (k < planes (sequence_of self.coded.q).form) }
        requires k_in_bounds { tight_length (sequence_of self.coded.q) k ≤ length out.old }
        ensures { BandTook self.entry k out.old out.new }
    {
        let q = self.coded.q;
        let bh = q.mb_height(k);
        let vb = q.visible_row_bytes(k);
        let vh = q.visible_rows(k);
        let h = bh.min(vh - self.my * bh);
        taking::write_zeros(out, self.my * bh * vb, h * vb);
    }
}

impl NalUnit<'_> {
    // Takes all visible samples of a picture of the size and kind q, whose payload has the exact length, into the planes of its kind, stored tight. No inserted
    // byte stands in the unit from the place `calm` on.
    pub fn take_samples(self, calm: usize, q: Session, y: &mut [u8], cb: &mut [u8], cr: &mut [u8])
        requires unit_at { IsUnit self }
        requires fine { (Fine (sequence_of q)) × (length (payload_of self) ≡ picture_length (sequence_of q)) }
        requires rooms { Rooms (sequence_of q) y.old cb.old cr.old }
        requires e_value { ins_count self.take.now calm self.end ≡ 0 }
        ensures { PlanesTook (sequence_of q) (payload_of self.entry) y.old y.new cb.old cb.new cr.old cr.new }
    {
        let coded = Coded {
            unit: self,
            calm,
            q,
        };
        let mut p = taking::skip(self.take, self.begin + 1, self.end, 2);
        for my in 0..q.mbs_height() {
            p = Row { coded, my, p }.take(y, cb, cr);
        }
    }
}
