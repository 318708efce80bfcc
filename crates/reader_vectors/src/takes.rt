// Takes of three pictures that the writer wrote, read back: each answer, its offset, and every byte of the planes.
use crate::judge::{ALL, Case, Judge, Planes, Wanted};
use crate::samples::{Content, Generator};
use crate::state::{COLOUR8, COLOUR12, MONO8, MONO12, NOTHING, at, both, sps_only};
use encoder::{Depths, EncodeError, Picture, Written};
use reader::Answer;
use slice::Strides;
use std::alloc::{AllocError, Global};
use std::io;
use tally::Tally;
use ycbcr_image::Session;

// The room for a take.
const ROOM: usize = 16000;

// A lent plane: the bytes of a visible row, the bytes from one row to the next, all bytes lent, and the bytes of the visible rows stored tight.
#[derive(Clone, Copy, Debug, PartialEq, Eq)]
struct Plane {
    row: usize,
    stride: usize,
    lent: usize,
    tight: usize,
}

// One that mono does not have.
const NO_PLANE: Plane = Plane {
    row: 0,
    stride: 0,
    lent: 0,
    tight: 0,
};

impl Plane {
    // The visible bytes of a lent plane, row behind row.
    fn visible(self, alloc: Global, lent: &[u8]) -> Result<Vec<u8>, AllocError> {
        let mut tight = Vec::new(alloc);
        for line in lent.chunks(self.stride.max(1)) {
            for b in line.iter().take(self.row) {
                if tight.len() < self.tight {
                    tight.push(*b)?;
                }
            }
        }
        Ok(tight)
    }
}

// The pictures of a take: size and kind, the planes, Cb and Cr having the same numbers, and the bytes of the sequence parameter set with its header.
#[derive(Clone, Copy, Debug, PartialEq, Eq)]
struct Shots {
    size: Session,
    y: Plane,
    chroma: Plane,
    sps: u8,
}

// The lent planes of a picture, and its number in the take.
#[derive(Drop)]
struct Drawn {
    number: u8,
    y: Vec<u8>,
    cb: Vec<u8>,
    cr: Vec<u8>,
}

// Those of the pictures of a take.
#[derive(Drop)]
struct Pictures {
    first: Drawn,
    second: Drawn,
    third: Drawn,
}

// Where the pictures of a take behind the first begin, and where it ends.
#[derive(Clone, Copy, Debug, PartialEq, Eq)]
struct Places {
    second: usize,
    third: usize,
    end: usize,
}

impl Shots {
    // Draws the picture of a number in the take that begins with the content number `content`.
    fn draw(self, alloc: Global, content: u8, number: u8) -> Result<Drawn, AllocError> {
        let a = u64::from(content);
        let b = u64::from(number);
        let mut generator = Generator::new(Content::numbered(a + b), 16 * a + b + 77);
        let y = generator.plane(alloc, self.y.lent)?;
        let cb = generator.plane(alloc, self.chroma.lent)?;
        let cr = generator.plane(alloc, self.chroma.lent)?;
        Ok(Drawn { number, y, cb, cr })
    }

    // Draws the pictures of that take: their contents follow each other.
    fn draw_take(self, alloc: Global, content: u8) -> Result<Pictures, AllocError> {
        let first = self.draw(alloc, content, 0)?;
        let second = self.draw(alloc, content, 1)?;
        let third = self.draw(alloc, content, 2)?;
        Ok(Pictures {
            first,
            second,
            third,
        })
    }

    // Writes a picture: the first in a start call, the others in next calls. (encoder_vectors puts one together alike, of values of its own.)
    fn write(self, drawn: &Drawn, out: &mut [u8]) -> Result<Written, EncodeError> {
        let Session {
            width,
            height,
            kind,
            depth,
        } = self.size;
        let planes = slice::Planes {
            y: &drawn.y,
            cb: &drawn.cb,
            cr: &drawn.cr,
            strides: Strides {
                y: self.y.stride,
                cb: self.chroma.stride,
                cr: self.chroma.stride,
            },
        };
        let depths = Depths {
            y: depth,
            cb: depth,
            cr: depth,
        };
        let picture = Picture {
            width,
            height,
            kind,
            planes,
            depths,
        };
        if drawn.number == 0 {
            encoder::start(picture, out)
        } else {
            encoder::next(self.size, picture, out)
        }
    }

    // Writes it from `at` on, and answers the place behind it; None where it is refused.
    fn write_at(self, drawn: &Drawn, take: &mut [u8], at: usize) -> Option<usize> {
        let written = self.write(drawn, take.get_mut(at..)?).ok()?;
        at.checked_add(written.length)
    }

    // Writes the pictures of a take.
    fn write_take(self, pictures: &Pictures, take: &mut [u8]) -> Option<Places> {
        let second = self.write_at(&pictures.first, take, 0)?;
        let third = self.write_at(&pictures.second, take, second)?;
        let end = self.write_at(&pictures.third, take, third)?;
        Some(Places { second, third, end })
    }

    // What is lent for the picture of a number: all for the second, and just enough for the others.
    fn lent(self, number: u8) -> Planes<usize> {
        if number == 1 {
            return ALL;
        }
        Planes {
            y: self.y.tight,
            cb: self.chroma.tight,
            cr: self.chroma.tight,
        }
    }
}

impl<R: Print + AllocGlobal> Judge<'_, R> {
    // Reads a picture, whose header is at `offset`; the next start code, or the end, is at `next`.
    fn read_picture(
        &mut self,
        case: &mut Case<'_>,
        shots: Shots,
        drawn: &Drawn,
        offset: usize,
        next: usize,
    ) -> io::Result<()> {
        let alloc = self.rt.alloc();
        let y = shots.y.visible(alloc, &drawn.y)?;
        let cb = shots.chroma.visible(alloc, &drawn.cb)?;
        let cr = shots.chroma.visible(alloc, &drawn.cr)?;
        let wanted = Wanted {
            answer: Answer::Picture(offset),
            then: at(next, both(shots.size)),
            planes: Planes {
                y: y.as_slice(),
                cb: cb.as_slice(),
                cr: cr.as_slice(),
            },
        };
        self.read(case, shots.lent(drawn.number), wanted)
    }

    // Reads a take; the end comes twice.
    fn read_back(
        &mut self,
        mut case: Case<'_>,
        shots: Shots,
        pictures: &Pictures,
        places: Places,
    ) -> io::Result<()> {
        let size = shots.size;
        let sps = usize::from(shots.sps);
        let Places { second, third, end } = places;
        let at_second = second.saturating_add(1);
        let in_second = second.saturating_add(4);
        let at_third = third.saturating_add(1);
        let in_third = third.saturating_add(4);
        self.step(&mut case, Answer::Sps(4, size), at(sps + 5, sps_only(size)))?;
        self.step(&mut case, Answer::Pps(sps + 8), at(sps + 13, both(size)))?;
        self.read_picture(&mut case, shots, &pictures.first, sps + 16, at_second)?;
        self.read_picture(&mut case, shots, &pictures.second, in_second, at_third)?;
        self.read_picture(&mut case, shots, &pictures.third, in_third, end)?;
        self.step(&mut case, Answer::End, at(end, both(size)))?;
        self.step(&mut case, Answer::End, at(end, both(size)))
    }

    // Writes a take and reads it back.
    fn judge_take(&mut self, name: &str, shots: Shots, content: u8) -> io::Result<()> {
        let alloc = self.rt.alloc();
        let pictures = shots.draw_take(alloc, content)?;
        let mut take = vec![in alloc; 0x55u8; ROOM]?;
        let places = shots.write_take(&pictures, &mut take);
        self.count(name, "the writing", places.is_some())?;
        let Some(places) = places else {
            return Ok(());
        };
        take.truncate(places.end);
        let case = Case::new(name, &take, at(0, NOTHING));
        self.read_back(case, shots, &pictures, places)
    }

    // A take that begins with each content.
    fn judge_each(&mut self, name: &str, shots: Shots) -> io::Result<()> {
        for content in 0..4 {
            self.judge_take(name, shots, content)?;
        }
        Ok(())
    }
}

// Takes in mono: the rows lent are as long as the padded ones, or three bytes longer.
pub fn mono(rt: &(impl Print + AllocGlobal)) -> io::Result<Tally> {
    let mut judge = Judge::new(rt);
    judge.judge_each(
        "mono 8, 1 by 1",
        Shots {
            size: MONO8.size(1, 1),
            y: Plane {
                row: 1,
                stride: 19,
                lent: 304,
                tight: 1,
            },
            chroma: NO_PLANE,
            sps: 11,
        },
    )?;
    judge.judge_each(
        "mono 8, 16 by 16",
        Shots {
            size: MONO8.size(16, 16),
            y: Plane {
                row: 16,
                stride: 16,
                lent: 256,
                tight: 256,
            },
            chroma: NO_PLANE,
            sps: 8,
        },
    )?;
    judge.judge_each(
        "mono 8, 17 by 16",
        Shots {
            size: MONO8.size(17, 16),
            y: Plane {
                row: 17,
                stride: 35,
                lent: 560,
                tight: 272,
            },
            chroma: NO_PLANE,
            sps: 10,
        },
    )?;
    judge.judge_each(
        "mono 12, 16 by 16",
        Shots {
            size: MONO12.size(16, 16),
            y: Plane {
                row: 24,
                stride: 24,
                lent: 384,
                tight: 384,
            },
            chroma: NO_PLANE,
            sps: 9,
        },
    )?;
    judge.judge_each(
        "mono 12, 30 by 17",
        Shots {
            size: MONO12.size(30, 17),
            y: Plane {
                row: 45,
                stride: 51,
                lent: 1632,
                tight: 765,
            },
            chroma: NO_PLANE,
            sps: 12,
        },
    )?;
    Ok(judge.tally)
}

// And in colour.
pub fn colour(rt: &(impl Print + AllocGlobal)) -> io::Result<Tally> {
    let mut judge = Judge::new(rt);
    judge.judge_each(
        "colour 8, 16 by 16",
        Shots {
            size: COLOUR8.size(16, 16),
            y: Plane {
                row: 16,
                stride: 16,
                lent: 256,
                tight: 256,
            },
            chroma: Plane {
                row: 8,
                stride: 8,
                lent: 64,
                tight: 64,
            },
            sps: 8,
        },
    )?;
    judge.judge_each(
        "colour 8, 18 by 34",
        Shots {
            size: COLOUR8.size(18, 34),
            y: Plane {
                row: 18,
                stride: 35,
                lent: 1680,
                tight: 612,
            },
            chroma: Plane {
                row: 9,
                stride: 19,
                lent: 456,
                tight: 153,
            },
            sps: 10,
        },
    )?;
    judge.judge_each(
        "colour 12, 16 by 16",
        Shots {
            size: COLOUR12.size(16, 16),
            y: Plane {
                row: 24,
                stride: 24,
                lent: 384,
                tight: 384,
            },
            chroma: Plane {
                row: 12,
                stride: 12,
                lent: 96,
                tight: 96,
            },
            sps: 10,
        },
    )?;
    judge.judge_each(
        "colour 12, 20 by 18",
        Shots {
            size: COLOUR12.size(20, 18),
            y: Plane {
                row: 30,
                stride: 51,
                lent: 1632,
                tight: 540,
            },
            chroma: Plane {
                row: 15,
                stride: 27,
                lent: 432,
                tight: 135,
            },
            sps: 12,
        },
    )?;
    Ok(judge.tally)
}
