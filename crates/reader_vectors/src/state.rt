// What the cases are stated in: sizes and kinds, and states of a reader.
use reader::{HeldSets, Reader};
use ycbcr_image::{BitDepth, Kind, Session};

// A kind with a depth.
#[derive(Clone, Copy, Debug, PartialEq, Eq)]
pub struct Form {
    kind: Kind,
    depth: BitDepth,
}

pub const MONO8: Form = Form {
    kind: Kind::Mono,
    depth: BitDepth::Depth8,
};

pub const MONO12: Form = Form {
    kind: Kind::Mono,
    depth: BitDepth::Depth12,
};

pub const COLOUR8: Form = Form {
    kind: Kind::Colour,
    depth: BitDepth::Depth8,
};

pub const COLOUR12: Form = Form {
    kind: Kind::Colour,
    depth: BitDepth::Depth12,
};

impl Form {
    // A size of it.
    pub fn size(self, width: u32, height: u32) -> Session {
        Session {
            width,
            height,
            kind: self.kind,
            depth: self.depth,
        }
    }
}

// No set held.
pub const NOTHING: HeldSets = HeldSets {
    sps: None,
    pps: false,
};

// A picture parameter set alone.
pub const PPS_ONLY: HeldSets = HeldSets {
    sps: None,
    pps: true,
};

// A sequence parameter set alone.
pub fn sps_only(size: Session) -> HeldSets {
    HeldSets {
        sps: Some(size),
        pps: false,
    }
}

// Both.
pub fn both(size: Session) -> HeldSets {
    HeldSets {
        sps: Some(size),
        pps: true,
    }
}

// A reader at `place` that holds these sets.
pub fn at(place: usize, sets: HeldSets) -> Reader {
    Reader { place, sets }
}
