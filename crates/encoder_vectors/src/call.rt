// A call of the writer, answered in outputs of several lengths.
use crate::line::LineError;
use crate::samples::Content;
use crate::sum::{EMPTY, sum_of};
use encoder::{Depths, EncodeError, Picture, Written};
use slice::{Planes, Strides};
use std::alloc::{AllocError, Global};
use tally::Tally;
use ycbcr_image::{BitDepth, Kind, Refusal, Session, YCbCrImage};

// The bytes of an output.
const BYTES: usize = 900000;

// The most bytes that planes have, all together.
const DRAWN: usize = 700000;

// The call that is made.
#[derive(Clone, Copy, Debug, PartialEq, Eq)]
pub enum Entry {
    Start,
    Next,
}

// A start or a next call with a picture, and what the planes of that hold.
#[derive(Clone, Copy, Debug, PartialEq, Eq)]
pub struct Call {
    pub entry: Entry,
    pub image: YCbCrImage,
    pub content: Content,
    pub seed: u64,
}

// A call with the picture that it lends.
#[derive(Clone, Copy, Debug, PartialEq, Eq)]
struct Case<'a> {
    call: Call,
    picture: Picture<'a>,
}

impl Case<'_> {
    // Makes the call, a next call in the session held.
    fn make(self, held: Session, out: &mut [u8]) -> Result<Written, EncodeError> {
        match self.call.entry {
            Entry::Start => encoder::start(self.picture, out),
            Entry::Next => encoder::next(held, self.picture, out),
        }
    }
}

// What an output begins with: the length that is written, the sum of these bytes, and the bytes, as far as they are known.
#[derive(Clone, Copy, Debug, PartialEq, Eq)]
pub struct Output<'a> {
    pub length: usize,
    pub sum: u64,
    pub bytes: &'a [u8],
}

impl Output<'_> {
    // Whether `out` begins with it, and has bytes `fill` behind it.
    fn stands_in(self, out: &[u8], fill: u8) -> bool {
        let Some((written, rest)) = out.split_at_checked(self.length) else {
            return false;
        };
        out.starts_with(self.bytes)
            && sum_of(written) == self.sum
            && rest.iter().all(|b| *b == fill)
    }
}

// What a call has to answer, and what its output begins with then.
#[derive(Clone, Copy, Debug, PartialEq, Eq)]
struct Wanted<'a> {
    answer: Result<Written, EncodeError>,
    output: Output<'a>,
}

impl Wanted<'_> {
    // A refusal, that leaves the output as it was.
    fn refused(error: EncodeError) -> Self {
        Wanted {
            answer: Err(error),
            output: Output {
                length: 0,
                sum: EMPTY,
                bytes: b"",
            },
        }
    }
}

// A host that makes calls in turn: what was compared of them, and the session that it holds behind the last.
#[derive(Drop)]
pub struct Host {
    pub alloc: Global,
    pub tally: Tally,
    held: Session,
}

impl Host {
    // No call yet, and a session that no call leaves.
    pub fn new(alloc: Global) -> Self {
        Host {
            alloc,
            tally: Tally::default(),
            held: Session {
                width: 0,
                height: 0,
                kind: Kind::Mono,
                depth: BitDepth::Depth8,
            },
        }
    }

    // Has the call answered in the first `room` bytes of an output of bytes `fill`. Compares the answer, with the session that the host holds then, and every
    // byte of the output.
    fn judge_in(
        &mut self,
        case: Case<'_>,
        room: usize,
        fill: u8,
        wanted: Wanted<'_>,
    ) -> Result<(), AllocError> {
        let mut out = vec![in self.alloc; fill; BYTES]?;
        let lent = room.min(out.len());
        let answer = case.make(self.held, &mut out[..lent]);
        if let Ok(written) = answer {
            self.held = written.session;
        }
        self.tally.count(answer == wanted.answer);
        self.tally.count(wanted.output.stands_in(&out, fill));
        Ok(())
    }

    // All that is compared of an accepted call: what it writes where there is more room than it needs, and where there is just that; and
    // a byte short, and in no room at all, the refusal for want of room.
    fn judge_written(&mut self, case: Case<'_>, output: Output<'_>) -> Result<(), LineError> {
        let Output { length, .. } = output;
        if length == 0 || BYTES < length {
            return Err(LineError::Malformed);
        }
        let written = Wanted {
            answer: Ok(Written {
                session: case.call.image.session(),
                length,
            }),
            output,
        };
        let short = Wanted::refused(EncodeError::NoRoom(length));
        self.judge_in(case, BYTES, 255, written)?;
        self.judge_in(case, length, 0, written)?;
        self.judge_in(case, length - 1, 255, short)?;
        self.judge_in(case, 0, 0, short)?;
        Ok(())
    }

    // All that is compared of a refused call: the refusal where there is room, and where there is none, before the one for want of room.
    fn judge_refused(&mut self, case: Case<'_>, refusal: Refusal) -> Result<(), LineError> {
        let refused = Wanted::refused(refusal.into());
        self.judge_in(case, BYTES, 255, refused)?;
        self.judge_in(case, 0, 0, refused)?;
        Ok(())
    }

    // Draws the planes of a call, and judges its answer and what it writes. Planes of more than DRAWN bytes are malformed, and so is a length that no call
    // writes.
    pub fn judge(
        &mut self,
        call: Call,
        wanted: Result<Output<'_>, Refusal>,
    ) -> Result<(), LineError> {
        let YCbCrImage {
            width,
            height,
            kind,
            y,
            cb,
            cr,
        } = call.image;
        let drawn = y.len.saturating_add(cb.len).saturating_add(cr.len);
        if DRAWN < drawn {
            return Err(LineError::Malformed);
        }
        let mut bytes = vec![in self.alloc; 0u8; drawn]?;
        call.content.draw(&mut bytes, call.seed);
        let (y_bytes, chroma) = bytes.split_at(y.len);
        let (cb_bytes, cr_bytes) = chroma.split_at(cb.len);
        let planes = Planes {
            y: y_bytes,
            cb: cb_bytes,
            cr: cr_bytes,
            strides: Strides {
                y: y.stride,
                cb: cb.stride,
                cr: cr.stride,
            },
        };
        let depths = Depths {
            y: y.depth,
            cb: cb.depth,
            cr: cr.depth,
        };
        let picture = Picture {
            width,
            height,
            kind,
            planes,
            depths,
        };
        let case = Case { call, picture };
        match wanted {
            Ok(output) => self.judge_written(case, output),
            Err(refusal) => self.judge_refused(case, refusal),
        }
    }
}
