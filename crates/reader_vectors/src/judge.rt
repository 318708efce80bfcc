// A call of the reader, compared with what it has to answer and to leave.
use crate::state::at;
use reader::{Answer, Reader, Refusal, Step};
use std::io;
use tally::Tally;

// The bytes of a plane.
pub const PLANE: usize = 1000;

// One thing of each plane.
#[derive(Clone, Copy, Debug, PartialEq, Eq)]
pub struct Planes<T> {
    pub y: T,
    pub cb: T,
    pub cr: T,
}

// All bytes of each plane.
pub const ALL: Planes<usize> = Planes {
    y: PLANE,
    cb: PLANE,
    cr: PLANE,
};

// None of them.
pub const NONE: Planes<usize> = Planes { y: 0, cb: 0, cr: 0 };

// The bytes of none.
pub const NO_BYTES: Planes<&'static [u8]> = Planes {
    y: b"",
    cb: b"",
    cr: b"",
};

// A case: its name, the take, and where the reading stands.
#[derive(Clone, Copy, Debug, PartialEq, Eq)]
pub struct Case<'a> {
    pub name: &'a str,
    pub take: &'a [u8],
    pub reader: Reader,
}

impl<'a> Case<'a> {
    pub fn new(name: &'a str, take: &'a [u8], reader: Reader) -> Self {
        Case { name, take, reader }
    }

    // Makes the call with the first bytes of the planes.
    fn make(self, y: &mut [u8], cb: &mut [u8], cr: &mut [u8], lent: Planes<usize>) -> Step {
        let y_end = lent.y.min(y.len());
        let cb_end = lent.cb.min(cb.len());
        let cr_end = lent.cr.min(cr.len());
        reader::read(
            self.take,
            self.reader,
            &mut y[..y_end],
            &mut cb[..cb_end],
            &mut cr[..cr_end],
        )
    }
}

// What a call has to answer, the state that it has to leave, and what the planes have to begin with then.
#[derive(Clone, Copy, Debug, PartialEq, Eq)]
pub struct Wanted<'a> {
    pub answer: Answer,
    pub then: Reader,
    pub planes: Planes<&'a [u8]>,
}

// The number of a refusal, as the table of the reader's refusals has it.
fn number(refusal: Refusal) -> u32 {
    match refusal {
        Refusal::Stray => 10,
        Refusal::Empty => 11,
        Refusal::Escaping => 12,
        Refusal::Header => 13,
        Refusal::ParameterSet => 14,
        Refusal::OtherThanHeld => 15,
        Refusal::NothingHeld => 16,
        Refusal::PictureShort => 17,
        Refusal::PictureForm => 18,
        Refusal::Planes => 19,
    }
}

// Whether it is the answer that is wanted, and of a refusal the number that the library gives it.
fn is_same(answer: Answer, wanted: Answer) -> bool {
    match answer {
        Answer::Refused(refusal, _) => answer == wanted && refusal.number() == number(refusal),
        _ => answer == wanted,
    }
}

// Whether the plane begins with `wanted`, and has bytes `fill` behind it.
fn holds(plane: &[u8], wanted: &[u8], fill: u8) -> bool {
    match plane.strip_prefix(wanted) {
        Some(rest) => rest.iter().all(|b| *b == fill),
        None => false,
    }
}

// Counts what is compared, and prints each difference.
#[derive(Drop)]
pub struct Judge<'a, R: Print> {
    pub rt: &'a R,
    pub tally: Tally,
}

impl<'a, R: Print> Judge<'a, R> {
    pub fn new(rt: &'a R) -> Self {
        Judge {
            rt,
            tally: Tally::default(),
        }
    }

    // One comparison more, of `what` in the case `name`.
    pub fn count(&mut self, name: &str, what: &str, right: bool) -> io::Result<()> {
        self.tally.count_case(self.rt, name, what, right)
    }

    // Makes the call with planes of bytes `fill`. Compares the answer, the place and the sets that the reader is left with, and every byte of each plane; and
    // answers the reader that is left.
    fn read_in(
        &mut self,
        case: Case<'_>,
        lent: Planes<usize>,
        wanted: Wanted<'_>,
        fill: u8,
    ) -> io::Result<Reader> {
        let mut y = [fill; PLANE];
        let mut cb = [fill; PLANE];
        let mut cr = [fill; PLANE];
        let Step { answer, reader } = case.make(&mut y, &mut cb, &mut cr, lent);
        self.count(case.name, "the answer", is_same(answer, wanted.answer))?;
        self.count(
            case.name,
            "the place left",
            reader.place == wanted.then.place,
        )?;
        self.count(case.name, "the sets held", reader.sets == wanted.then.sets)?;
        self.count(case.name, "plane Y", holds(&y, wanted.planes.y, fill))?;
        self.count(case.name, "plane Cb", holds(&cb, wanted.planes.cb, fill))?;
        self.count(case.name, "plane Cr", holds(&cr, wanted.planes.cr, fill))?;
        Ok(reader)
    }

    // Makes the call where the reading stands, with planes of bytes FF and of bytes 00, and moves the case on.
    pub fn read(
        &mut self,
        case: &mut Case<'_>,
        lent: Planes<usize>,
        wanted: Wanted<'_>,
    ) -> io::Result<()> {
        let call = *case;
        self.read_in(call, lent, wanted, 255)?;
        case.reader = self.read_in(call, lent, wanted, 0)?;
        Ok(())
    }

    // The same of a call that leaves the planes as they are, with all of them lent.
    pub fn step(&mut self, case: &mut Case<'_>, answer: Answer, then: Reader) -> io::Result<()> {
        let wanted = Wanted {
            answer,
            then,
            planes: NO_BYTES,
        };
        self.read(case, ALL, wanted)
    }

    // The same of one call alone.
    pub fn once(&mut self, mut case: Case<'_>, answer: Answer, then: Reader) -> io::Result<()> {
        self.step(&mut case, answer, then)
    }

    // The same of one call that is refused: the sets held stay, and the place is then `next`.
    pub fn refuse(
        &mut self,
        case: Case<'_>,
        refusal: Refusal,
        offset: usize,
        next: usize,
    ) -> io::Result<()> {
        let then = at(next, case.reader.sets);
        self.once(case, Answer::Refused(refusal, offset), then)
    }
}
