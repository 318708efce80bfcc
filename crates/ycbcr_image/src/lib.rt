// Pictures by their numbers (ycbcr_image.rs, and the size tests of encoder.rs, with BitDepth, div_ceil and next_multiple of lib.rs): kinds and sizes, and the
// writer's refusals 1 to 8. The planes' bytes stay with the caller. Planes are numbered: 0 is Y, 1 Cb, 2 Cr (an enum would refuse the numbers that C's
// reelpony_plane_len serves).
#![tactic(auto)]

ghost use Rattle.std.specs.Prelude.{◌≡◌, true, ◌+◌, ◌^◌, ◌<◌};
ghost use Rattle.ycbcr_image.specs.Form.{depth_of, chroma_of, mono, planes, in_plane, bytes_of, block_width, block_height, block_row_bytes, mb_bytes, crop_unit_x, crop_unit_y};
ghost use Rattle.ycbcr_image.specs.Sizes.{sequence_of, pic_width_in_mbs, frame_height_in_mbs, visible_width, visible_height, padded_height, visible_row_bytes, padded_row_bytes, tight_length};
ghost use Rattle.ycbcr_image.specs.Refusals.{session_of, of_picture, size_bad, depths_bad, four_bad, odd_bad, height_bad, session_bad, accepted, shape_refusal, plane_refusal, planes_refusal, refusal_of, refusal_next};
ghost use Rattle.ycbcr_image.specs.Numbers.{number, refusal_number};

// The bits of a sample.
#[derive(Clone, Copy, Debug, PartialEq, Eq)]
pub enum BitDepth {
    Depth8,
    Depth12,
}

// Y alone, or Y with Cb and Cr at half its width and height (4:2:0).
#[derive(Clone, Copy, Debug, PartialEq, Eq)]
pub enum Kind {
    Mono,
    Colour,
}

// A lent plane: its bytes, the bytes from one row to the next, its depth.
#[derive(Clone, Copy, Debug, PartialEq, Eq)]
pub struct DataPlane {
    pub len: usize,
    pub stride: usize,
    pub depth: BitDepth,
}

// A picture. Of a monochrome one `cb` and `cr` are never looked at.
#[derive(Clone, Copy, Debug, PartialEq, Eq)]
pub struct YCbCrImage {
    pub width: u32,
    pub height: u32,
    pub kind: Kind,
    pub y: DataPlane,
    pub cb: DataPlane,
    pub cr: DataPlane,
}

// What stays the same through a take: what a start call leaves, and what a sequence parameter set says.
#[derive(Clone, Copy, Debug, PartialEq, Eq)]
pub struct Session {
    pub width: u32,
    pub height: u32,
    pub kind: Kind,
    pub depth: BitDepth,
}

// What the writer refuses, a variant for each row of the table, in its order.
#[derive(Clone, Copy, Debug, PartialEq, Eq)]
pub enum Refusal {
    // Width or height is 0 or over 16,384.
    Size = 1,
    // Colour and the three depths differ.
    Depths = 2,
    // Colour, 12 bits, width not a multiple of 4.
    Colour12Width = 3,
    // Width odd, unless mono 8.
    OddWidth = 4,
    // Colour and height odd.
    OddHeight = 5,
    // Width, height, colour or depth is not the session's.
    OtherThanSession = 6,
    // A plane's stride is below its padded row's bytes.
    Stride = 7,
    // A plane has fewer whole rows of `stride` bytes than its padded height.
    Rows = 8,
}

impl BitDepth {
    // The bits of a sample, as a number. (By this name and not by From: it is public, and docs/ANSWERS.md promises it; so of the kind.)
    pub fn num_bits(self) -> u32
        ensures { result ≡ depth_of self }
    {
        match self {
            BitDepth::Depth8 => 8,
            BitDepth::Depth12 => 12,
        }
    }
}

impl Kind {
    // The kind, as the standard numbers it.
    pub fn chroma_format_idc(self) -> u32
        ensures { result ≡ chroma_of self }
    {
        match self {
            Kind::Mono => 0,
            Kind::Colour => 1,
        }
    }
}

impl Refusal {
    // Its row of the table, by number.
    pub fn number(self) -> u32
        ensures { result ≡ number self }
    {
        self as u32
    }
}

impl Session {
    // What the kind and the depth fix. Across and down there is a function each, though they agree in 4:2:0: docs/ANSWERS.md names the public ones, each with a
    // definition of its own, and `mb_width` stands beside `mb_height`.

    // Whether there is no chroma.
    #[tactic(auto, unfolding(crate::specs::Form::mono))]
    pub fn is_monochrome(self) -> bool
        ensures { result ≡ mono (sequence_of self).form }
    {
        self.kind == Kind::Mono
    }

    // Of plane p: `luma` for Y, `chroma` for Cb and Cr; 0 where the kind has no such plane, and so for all that follows.
    #[tactic(auto, unfolding(crate::specs::Form::in_plane, crate::specs::Form::mono))]
    fn in_plane(self, p: u32, luma: usize, chroma: usize) -> usize
        ensures { result ≡ in_plane (sequence_of self).form p luma chroma }
    {
        if p == 0 {
            return luma;
        }
        match self.kind {
            Kind::Mono => 0,
            Kind::Colour => chroma,
        }
    }

    // The columns of plane p's block in a macroblock.
    #[tactic(auto, using(crate::proofs::Facts::block_wide))]
    fn mb_width(self, p: u32) -> usize
        ensures { result ≡ block_width (sequence_of self).form p }
    {
        self.in_plane(p, 16, 8)
    }

    // The rows of the block.
    #[tactic(auto, using(crate::proofs::Facts::block_high))]
    pub fn mb_height(self, p: u32) -> usize
        ensures { result ≡ block_height (sequence_of self).form p }
    {
        self.in_plane(p, 16, 8)
    }

    // The units in which a picture is cropped, across.
    #[tactic(auto, unfolding(crate::specs::Form::crop_unit_x, crate::specs::Form::mono, crate::specs::Form::sub_width_c))]
    pub fn crop_unit_x(self) -> u32
        ensures { result ≡ crop_unit_x (sequence_of self).form }
    {
        match self.kind {
            Kind::Mono => 1,
            Kind::Colour => 2,
        }
    }

    // And down.
    #[tactic(auto, unfolding(crate::specs::Form::crop_unit_y, crate::specs::Form::mono, crate::specs::Form::sub_height_c))]
    pub fn crop_unit_y(self) -> u32
        ensures { result ≡ crop_unit_y (sequence_of self).form }
    {
        match self.kind {
            Kind::Mono => 1,
            Kind::Colour => 2,
        }
    }

    // The bytes of n samples in a row.
    #[tactic(auto, unfolding(crate::specs::Form::bytes_of))]
    fn row_bytes(self, n: usize) -> usize
        requires { n < 2 ^ 62 }
        ensures { result ≡ bytes_of (sequence_of self).form n }
    {
        match self.depth {
            BitDepth::Depth8 => n,
            BitDepth::Depth12 => n * 3 / 2,
        }
    }

    // The bytes of a row of plane p's block.
    #[tactic(auto, using(crate::proofs::Facts::sides), unfolding(crate::specs::Form::block_row_bytes))]
    pub fn block_row_bytes(self, p: u32) -> usize
        ensures { result ≡ block_row_bytes (sequence_of self).form p }
    {
        self.row_bytes(self.mb_width(p))
    }

    // The bytes of a macroblock's samples.
    #[tactic(auto, using(crate::proofs::Facts::chroma_most), unfolding(crate::specs::Form::mb_bytes))]
    pub fn mb_bytes(self) -> usize
        ensures { result ≡ mb_bytes (sequence_of self).form }
    {
        self.row_bytes(256 + 2 * (self.mb_width(1) * self.mb_height(1)))
    }

    // Sizes. (What they require is no type of its own: `tight_len` is public and keeps its `requires`, and for the private ones it would be no plainer.)

    // The macroblocks across a picture.
    #[tactic(auto, unfolding(crate::specs::Sizes::pic_width_in_mbs, crate::specs::Sizes::next_multiple, crate::specs::Sizes::div_ceil))]
    pub fn mbs_width(self) -> usize
        ensures { result ≡ pic_width_in_mbs (sequence_of self) }
    {
        (self.width as usize).div_ceil(16)
    }

    // And down.
    #[tactic(auto, unfolding(crate::specs::Sizes::frame_height_in_mbs, crate::specs::Sizes::next_multiple, crate::specs::Sizes::div_ceil))]
    pub fn mbs_height(self) -> usize
        ensures { result ≡ frame_height_in_mbs (sequence_of self) }
    {
        (self.height as usize).div_ceil(16)
    }

    // The visible columns of plane p.
    #[tactic(auto, using(crate::proofs::Facts::visible_wide))]
    fn visible_width(self, p: u32) -> usize
        ensures { result ≡ visible_width (sequence_of self) p }
    {
        self.in_plane(p, self.width as usize, self.width as usize / 2)
    }

    // Its visible rows.
    #[tactic(auto, using(crate::proofs::Facts::visible_high))]
    pub fn visible_rows(self, p: u32) -> usize
        ensures { result ≡ visible_height (sequence_of self) p }
    {
        self.in_plane(p, self.height as usize, self.height as usize / 2)
    }

    // The bytes of a visible row.
    #[tactic(auto, using(crate::proofs::Facts::sides), unfolding(crate::specs::Sizes::visible_row_bytes))]
    pub fn visible_row_bytes(self, p: u32) -> usize
        ensures { result ≡ visible_row_bytes (sequence_of self) p }
    {
        self.row_bytes(self.visible_width(p))
    }

    // The bytes of the visible rows, stored tight.
    #[tactic(auto, using(crate::proofs::Facts::tight_fits), unfolding(crate::specs::Sizes::tight_length))]
    pub fn tight_len(self, p: u32) -> usize
        requires { accepted (sequence_of self) ≡ true }
        ensures { result ≡ tight_length (sequence_of self) p }
    {
        self.visible_rows(p) * self.visible_row_bytes(p)
    }

    // The bytes of a row of plane p with its padding.
    #[tactic(auto, using(crate::proofs::Facts::sides, crate::proofs::Multiples::fits, crate::proofs::Multiples::next), unfolding(crate::specs::Sizes::padded_row_bytes, crate::specs::Sizes::padded_width))]
    fn padded_row_bytes(self, p: u32) -> usize
        requires { p < planes (sequence_of self).form }
        ensures { result ≡ padded_row_bytes (sequence_of self) p }
    {
        let visible = self.visible_width(p);
        let padded = visible.next_multiple_of(self.mb_width(p));
        self.row_bytes(padded)
    }

    // Its rows with the padding.
    #[tactic(auto, using(crate::proofs::Facts::sides, crate::proofs::Multiples::fits, crate::proofs::Multiples::next), unfolding(crate::specs::Sizes::padded_height))]
    fn padded_rows(self, p: u32) -> usize
        requires { p < planes (sequence_of self).form }
        ensures { result ≡ padded_height (sequence_of self) p }
    {
        self.visible_rows(p).next_multiple_of(self.mb_height(p))
    }

    // The refusals, a function for each row of the table.

    // Width or height is 0 or over 16,384.
    #[tactic(auto, unfolding(crate::specs::Refusals::size_bad))]
    fn size_bad(self) -> bool
        ensures { result ≡ size_bad (sequence_of self) }
    {
        self.width == 0 || 16384 < self.width || self.height == 0 || 16384 < self.height
    }

    // Colour, 12 bits, width not a multiple of 4.
    #[tactic(auto, unfolding(crate::specs::Refusals::four_bad))]
    fn four_bad(self) -> bool
        ensures { result ≡ four_bad (sequence_of self) }
    {
        !self.is_monochrome() && self.depth == BitDepth::Depth12 && self.width % 4 != 0
    }

    // Width odd, unless mono 8.
    #[tactic(auto, unfolding(crate::specs::Refusals::odd_bad))]
    fn odd_bad(self) -> bool
        ensures { result ≡ odd_bad (sequence_of self) }
    {
        self.width % 2 != 0 && !(self.is_monochrome() && self.depth == BitDepth::Depth8)
    }

    // Colour and height odd.
    #[tactic(auto, unfolding(crate::specs::Refusals::height_bad))]
    fn height_bad(self) -> bool
        ensures { result ≡ height_bad (sequence_of self) }
    {
        !self.is_monochrome() && self.height % 2 != 0
    }

    // Width, height, colour or depth of s is not this session's.
    #[tactic(auto, using(crate::proofs::Facts::same_kind, crate::proofs::Facts::same_depth), unfolding(crate::specs::Refusals::session_bad))]
    pub fn differs(self, s: Session) -> bool
        ensures { result ≡ session_bad (sequence_of self) (sequence_of s) }
    {
        s != self
    }

    // Whether the rows of size and kind let it pass.
    #[tactic(auto, unfolding(crate::specs::Refusals::accepted))]
    pub fn is_accepted(self) -> bool
        ensures { result ≡ accepted (sequence_of self) }
    {
        !(self.size_bad() || self.four_bad() || self.odd_bad() || self.height_bad())
    }

    // The tests of plane p, in the table's order.
    #[tactic(auto, using(crate::proofs::Facts::row_there), unfolding(crate::specs::Refusals::plane_refusal, crate::specs::Refusals::stride_bad, crate::specs::Refusals::rows_bad))]
    fn check_plane(self, p: u32, a: DataPlane) -> Result<(), Refusal>
        requires sizes { accepted (sequence_of self) ≡ true }
        requires there { p < planes (sequence_of self).form }
        ensures { refusal_number result ≡ plane_refusal (sequence_of self) p a }
    {
        if a.stride < self.padded_row_bytes(p) {
            return Err(Refusal::Stride);
        }
        if a.len / a.stride < self.padded_rows(p) {
            return Err(Refusal::Rows);
        }
        Ok(())
    }
}

impl YCbCrImage {
    // The session that a start call with this picture leaves.
    pub fn session(self) -> Session
        ensures { result ≡ session_of self }
    {
        Session {
            width: self.width,
            height: self.height,
            kind: self.kind,
            depth: self.y.depth,
        }
    }

    // Colour and the three depths differ.
    #[tactic(auto, unfolding(crate::specs::Refusals::depths_bad))]
    fn depths_bad(self) -> bool
        ensures { result ≡ depths_bad self }
    {
        !self.session().is_monochrome()
            && (self.y.depth != self.cb.depth || self.y.depth != self.cr.depth)
    }

    // The tests of the size, the kind and the depths, in the table's order.
    #[tactic(auto, unfolding(crate::specs::Refusals::shape_refusal))]
    fn check_shape(self) -> Result<(), Refusal>
        ensures { refusal_number result ≡ shape_refusal self }
    {
        let s = self.session();
        if s.size_bad() {
            return Err(Refusal::Size);
        }
        if self.depths_bad() {
            return Err(Refusal::Depths);
        }
        if s.four_bad() {
            return Err(Refusal::Colour12Width);
        }
        if s.odd_bad() {
            return Err(Refusal::OddWidth);
        }
        if s.height_bad() {
            return Err(Refusal::OddHeight);
        }
        Ok(())
    }

    // The tests of the planes: Y, then Cb, then Cr.
    #[tactic(auto, using(crate::proofs::Facts::there), unfolding(crate::specs::Refusals::planes_refusal, crate::specs::Refusals::chroma_refusal, crate::specs::Refusals::first))]
    fn check_planes(self) -> Result<(), Refusal>
        requires { accepted (of_picture self) ≡ true }
        ensures { refusal_number result ≡ planes_refusal self }
    {
        let s = self.session();
        s.check_plane(0, self.y)?;
        if !s.is_monochrome() {
            s.check_plane(1, self.cb)?;
            s.check_plane(2, self.cr)?;
        }
        Ok(())
    }

    // What a start call with this picture is refused with.
    #[tactic(auto, using(crate::proofs::Passed::passing), unfolding(crate::specs::Refusals::refusal_of, crate::specs::Refusals::first))]
    pub fn check_start(self) -> Result<(), Refusal>
        ensures { refusal_number result ≡ refusal_of self }
    {
        self.check_shape()?;
        self.check_planes()
    }

    // The same of a next call in the session held.
    #[tactic(auto, using(crate::proofs::Passed::passing), unfolding(crate::specs::Refusals::refusal_next, crate::specs::Refusals::first))]
    pub fn check_next(self, held: Session) -> Result<(), Refusal>
        ensures { refusal_number result ≡ refusal_next (sequence_of held) self }
    {
        self.check_shape()?; // these come before the session's
        if held.differs(self.session()) {
            return Err(Refusal::OtherThanSession);
        }
        self.check_planes()
    }
}
