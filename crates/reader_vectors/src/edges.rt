// Places, zeros, the order of sets, states that no call leaves, and the lengths of planes.
use crate::judge::{Case, Judge, NONE, Planes, Wanted};
use crate::plain::{WIDE, put, wide};
use crate::state::{COLOUR8, COLOUR12, MONO8, MONO12, NOTHING, PPS_ONLY, at, both, sps_only};
use reader::{Answer, HeldSets, Refusal};
use std::io;
use tally::Tally;
use ycbcr_image::Session;

impl<R: Print> Judge<'_, R> {
    // Has the end answered at `place`, which stays, where no set is held and where both are.
    fn ends(&mut self, name: &str, take: &[u8], place: usize) -> io::Result<()> {
        let bare = at(place, NOTHING);
        let held = at(place, both(MONO8.size(16, 16)));
        self.once(Case::new(name, take, bare), Answer::End, bare)?;
        self.once(Case::new(name, take, held), Answer::End, held)
    }

    // Zeros behind a unit: the place moves to the start code behind them, or to the end.
    fn zeros(&mut self) -> io::Result<()> {
        let name = "zeros behind units";
        let take =
            b"\x00\x00\x00\x00\x01\x68\xCE\x38\x80\x00\x00\x00\x00\x01\x68\xCE\x38\x80\x00\x00\x00";
        let mut case = Case::new(name, take, at(0, NOTHING));
        self.step(&mut case, Answer::Pps(5), at(11, PPS_ONLY))?;
        self.step(&mut case, Answer::Pps(14), at(21, PPS_ONLY))?;
        self.step(&mut case, Answer::End, at(21, PPS_ONLY))
    }

    // Refusals in turn, and what stands behind them.
    fn onward(&mut self) -> io::Result<()> {
        let name = "a set behind refusals";
        let take =
            b"\x05\x00\x00\x01\x00\x00\x01\x41\x00\x00\x01\x68\x00\x00\x02\x00\x00\x01\x68\xCE\x38\x80";
        let mut case = Case::new(name, take, at(0, NOTHING));
        self.step(
            &mut case,
            Answer::Refused(Refusal::Stray, 0),
            at(1, NOTHING),
        )?;
        self.step(
            &mut case,
            Answer::Refused(Refusal::Empty, 4),
            at(4, NOTHING),
        )?;
        self.step(
            &mut case,
            Answer::Refused(Refusal::Header, 7),
            at(8, NOTHING),
        )?;
        self.step(
            &mut case,
            Answer::Refused(Refusal::Escaping, 11),
            at(15, NOTHING),
        )?;
        self.step(&mut case, Answer::Pps(18), at(22, PPS_ONLY))?;
        self.step(&mut case, Answer::End, at(22, PPS_ONLY))
    }

    // Equal sets again: nothing is changed.
    fn again(&mut self) -> io::Result<()> {
        let name = "equal sets again";
        let take =
            b"\x00\x00\x00\x01\x67\x64\x00\x0A\xF3\xDC\x9B\x01\x00\x00\x01\x67\x64\x00\x0A\xF3\xDC\x9B\x01\
            \x00\x00\x01\x68\xCE\x38\x80\x00\x00\x01\x68\xCE\x38\x80\x00\x00\x01\x67\x64\x00\x0A\xF3\xDC\x9B\x01";
        let size = MONO8.size(16, 16);
        let mut case = Case::new(name, take, at(0, NOTHING));
        self.step(&mut case, Answer::Sps(4, size), at(12, sps_only(size)))?;
        self.step(&mut case, Answer::Sps(15, size), at(23, sps_only(size)))?;
        self.step(&mut case, Answer::Pps(26), at(30, both(size)))?;
        self.step(&mut case, Answer::Pps(33), at(37, both(size)))?;
        self.step(&mut case, Answer::Sps(40, size), at(48, both(size)))?;
        self.step(&mut case, Answer::End, at(48, both(size)))
    }

    // A picture parameter set before the other, and a picture behind both.
    fn turned(&mut self) -> io::Result<()> {
        let name = "PPS, SPS, picture";
        let mut take = wide();
        put(
            &mut take,
            0,
            b"\x00\x00\x00\x01\x68\xCE\x38\x80\x00\x00\x00\x01\x67\x64\x00\x0A\xF3\xCB\x61\x0E\x6C\x04",
        );
        let size = MONO8.size(17, 16);
        let mut case = Case::new(name, &take, at(0, NOTHING));
        self.step(&mut case, Answer::Pps(4), at(9, PPS_ONLY))?;
        self.step(&mut case, Answer::Sps(12, size), at(23, both(size)))?;
        let wanted = Wanted {
            answer: Answer::Picture(26),
            then: at(WIDE, both(size)),
            planes: Planes {
                y: &[0x10; 272],
                cb: b"",
                cr: b"",
            },
        };
        self.read(
            &mut case,
            Planes {
                y: 272,
                cb: 0,
                cr: 0,
            },
            wanted,
        )?;
        self.step(&mut case, Answer::End, at(WIDE, both(size)))
    }

    // A state that holds a size and kind that no accepted set gives counts as holding nothing: a picture is refused with 16, which keeps the state; a sequence
    // parameter set is taken, and no picture parameter set is held then; one of these is taken alone; the end keeps the state.
    fn judge_impossible(&mut self, name: &str, take: &[u8], size: Session) -> io::Result<()> {
        let held = both(size);
        let taken = Answer::Sps(4, MONO8.size(17, 16));
        let then = at(15, sps_only(MONO8.size(17, 16)));
        self.refuse(
            Case::new(name, take, at(22, held)),
            Refusal::NothingHeld,
            26,
            WIDE,
        )?;
        self.once(Case::new(name, take, at(0, held)), taken, then)?;
        self.once(Case::new(name, take, at(0, sps_only(size))), taken, then)?;
        self.once(
            Case::new(name, take, at(14, held)),
            Answer::Pps(18),
            at(23, PPS_ONLY),
        )?;
        self.refuse(Case::new(name, take, at(4, held)), Refusal::Stray, 4, 15)?;
        self.once(
            Case::new(name, take, at(WIDE, held)),
            Answer::End,
            at(WIDE, held),
        )?;
        self.lengths_are(name, held, NONE)
    }

    // Has these lengths told of the planes, and 0 of a plane that there is not.
    fn lengths_are(
        &mut self,
        name: &str,
        sets: HeldSets,
        lengths: Planes<usize>,
    ) -> io::Result<()> {
        self.count(name, "the length of Y", sets.plane_len(0) == lengths.y)?;
        self.count(name, "the length of Cb", sets.plane_len(1) == lengths.cb)?;
        self.count(name, "the length of Cr", sets.plane_len(2) == lengths.cr)?;
        self.count(name, "the length of plane 3", sets.plane_len(3) == 0)?;
        self.count(
            name,
            "the length of the largest plane",
            sets.plane_len(u32::MAX) == 0,
        )
    }
}

// The end: the place at it, beyond it and at the largest number; empty takes; zeros only.
pub fn ending(rt: &impl Print) -> io::Result<Tally> {
    let mut judge = Judge::new(rt);
    let unit = b"\x00\x00\x01\x68\xCE\x38\x80";
    judge.ends("the place at the end", unit, 7)?;
    judge.ends("the place beyond the end", unit, 8)?;
    judge.ends("the largest place", unit, usize::MAX)?;
    judge.ends("an empty take", b"", 0)?;
    judge.ends("an empty take, place 1", b"", 1)?;
    judge.ends("an empty take, the largest place", b"", usize::MAX)?;
    judge.ends("one zero", b"\x00", 0)?;
    judge.ends("three zeros", b"\x00\x00\x00", 0)?;
    judge.ends("five zeros", b"\x00\x00\x00\x00\x00", 0)?;
    judge.ends("five zeros, place 3", b"\x00\x00\x00\x00\x00", 3)?;
    judge.ends(
        "zeros behind a unit",
        b"\x00\x00\x01\x68\xCE\x38\x80\x00\x00\x00",
        8,
    )?;
    Ok(judge.tally)
}

// Places within a start code, and within a unit: what stands there belongs to no unit, unless it is the first zero of four bytes.
pub fn places(rt: &impl Print) -> io::Result<Tally> {
    let mut judge = Judge::new(rt);
    let three = b"\x00\x00\x01\x68\xCE\x38\x80\x00\x00\x01\x68\xCE\x38\x80";
    let four = b"\x00\x00\x00\x01\x68\xCE\x38\x80";
    let held = both(MONO8.size(16, 16));
    judge.refuse(
        Case::new("behind a start code's first zero", three, at(1, held)),
        Refusal::Stray,
        1,
        7,
    )?;
    judge.refuse(
        Case::new("behind its second", three, at(2, held)),
        Refusal::Stray,
        2,
        7,
    )?;
    judge.refuse(
        Case::new("behind it", three, at(3, held)),
        Refusal::Stray,
        3,
        7,
    )?;
    judge.refuse(
        Case::new("at a unit's last byte", three, at(6, held)),
        Refusal::Stray,
        6,
        7,
    )?;
    judge.once(
        Case::new("at the next", three, at(7, held)),
        Answer::Pps(10),
        at(14, held),
    )?;
    judge.refuse(
        Case::new("within the last", three, at(8, held)),
        Refusal::Stray,
        8,
        14,
    )?;
    judge.once(
        Case::new("at the first of three zeros", four, at(0, held)),
        Answer::Pps(4),
        at(8, held),
    )?;
    judge.once(
        Case::new("at the second", four, at(1, held)),
        Answer::Pps(4),
        at(8, held),
    )?;
    judge.refuse(
        Case::new("at the third", four, at(2, held)),
        Refusal::Stray,
        2,
        8,
    )?;
    Ok(judge.tally)
}

// Calls in turn.
pub fn walks(rt: &impl Print) -> io::Result<Tally> {
    let mut judge = Judge::new(rt);
    judge.zeros()?;
    judge.onward()?;
    judge.again()?;
    judge.turned()?;
    Ok(judge.tally)
}

// Sizes and kinds that no accepted set gives; and the largest size, which one does: its picture is too short.
pub fn impossible(rt: &impl Print) -> io::Result<Tally> {
    let mut judge = Judge::new(rt);
    let take = wide();
    judge.judge_impossible("16385 columns held", &take, MONO8.size(16385, 16))?;
    judge.judge_impossible("16385 rows held", &take, MONO8.size(16, 16385))?;
    judge.judge_impossible("the largest width held", &take, MONO8.size(u32::MAX, 16))?;
    judge.judge_impossible("no column held", &take, MONO8.size(0, 16))?;
    judge.judge_impossible("no row held", &take, MONO8.size(16, 0))?;
    judge.judge_impossible("colour 8, 17 columns held", &take, COLOUR8.size(17, 16))?;
    judge.judge_impossible("colour 8, 17 rows held", &take, COLOUR8.size(16, 17))?;
    judge.judge_impossible("mono 12, 17 columns held", &take, MONO12.size(17, 16))?;
    judge.judge_impossible("colour 12, 18 columns held", &take, COLOUR12.size(18, 16))?;
    let largest = at(22, both(MONO8.size(16384, 16384)));
    judge.refuse(
        Case::new("the largest size held", &take, largest),
        Refusal::PictureShort,
        26,
        WIDE,
    )?;
    Ok(judge.tally)
}

// The lengths of the planes, stored tight.
pub fn lengths(rt: &impl Print) -> io::Result<Tally> {
    let mut judge = Judge::new(rt);
    judge.lengths_are("nothing held", NOTHING, NONE)?;
    judge.lengths_are("PPS held", PPS_ONLY, NONE)?;
    judge.lengths_are(
        "mono 8, 1 by 1",
        sps_only(MONO8.size(1, 1)),
        Planes { y: 1, cb: 0, cr: 0 },
    )?;
    judge.lengths_are(
        "mono 8, 17 by 16",
        both(MONO8.size(17, 16)),
        Planes {
            y: 272,
            cb: 0,
            cr: 0,
        },
    )?;
    judge.lengths_are(
        "mono 12, 30 by 17",
        both(MONO12.size(30, 17)),
        Planes {
            y: 765,
            cb: 0,
            cr: 0,
        },
    )?;
    judge.lengths_are(
        "colour 8, 2 by 2",
        sps_only(COLOUR8.size(2, 2)),
        Planes { y: 4, cb: 1, cr: 1 },
    )?;
    judge.lengths_are(
        "colour 8, 18 by 34",
        both(COLOUR8.size(18, 34)),
        Planes {
            y: 612,
            cb: 153,
            cr: 153,
        },
    )?;
    judge.lengths_are(
        "colour 12, 20 by 18",
        both(COLOUR12.size(20, 18)),
        Planes {
            y: 540,
            cb: 135,
            cr: 135,
        },
    )?;
    judge.lengths_are(
        "colour 12, the largest size",
        both(COLOUR12.size(16384, 16384)),
        Planes {
            y: 402653184,
            cb: 100663296,
            cr: 100663296,
        },
    )?;
    Ok(judge.tally)
}
