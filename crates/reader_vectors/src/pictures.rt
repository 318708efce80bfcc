// The refusals 17 to 19, of the pictures of plain.rt, and pictures that are accepted.
use crate::judge::{ALL, Case, Judge, NO_BYTES, NONE, Planes, Wanted};
use crate::plain::{COLOUR, WIDE, colour, flip, put, wide};
use crate::state::{COLOUR8, MONO8, at, both};
use reader::{Answer, Reader, Refusal};
use std::io;
use std::ops::Range;
use tally::Tally;

// The room for a take that is longer than the one it is made of.
const ROOM: usize = 600;

impl<R: Print> Judge<'_, R> {
    // Has the first `n` bytes refused where `bytes` stand at `place`, and bytes 10 hex behind the take, with all of the planes lent, and with none: 17 and 18 go before 19.
    // (An array, as in refusals.rt.)
    fn refuse_with(
        &mut self,
        name: &str,
        place: usize,
        bytes: &[u8],
        n: usize,
        refusal: Refusal,
    ) -> io::Result<()> {
        let mut take = [0x10; ROOM];
        put(&mut take, 0, &wide());
        put(&mut take, place, bytes);
        let end = n.min(take.len());
        let sets = both(MONO8.size(17, 16));
        let mut case = Case::new(name, &take[..end], at(22, sets));
        self.refuse(case, refusal, 26, n)?;
        let wanted = Wanted {
            answer: Answer::Refused(refusal, 26),
            then: at(n, sets),
            planes: NO_BYTES,
        };
        self.read(&mut case, NONE, wanted)
    }

    // Has the picture refused with 18 where the bit number `k` is changed.
    fn refuse_bit(&mut self, name: &str, k: usize) -> io::Result<()> {
        let mut take = wide();
        flip(&mut take, k);
        let case = Case::new(name, &take, at(22, both(MONO8.size(17, 16))));
        self.refuse(case, Refusal::PictureForm, 26, WIDE)
    }

    // The same of each of these bits.
    fn refuse_bits(&mut self, name: &str, bits: Range<usize>) -> io::Result<()> {
        for k in bits {
            self.refuse_bit(name, k)?;
        }
        Ok(())
    }
}

// 17: a payload that is too short; 18 is not looked at.
pub fn short(rt: &impl Print) -> io::Result<Tally> {
    let mut judge = Judge::new(rt);
    let short = Refusal::PictureShort;
    judge.refuse_with("17, a sample missing", 544, b"\x80", 545, short)?;
    judge.refuse_with("17, the last byte missing", 0, b"", 545, short)?;
    judge.refuse_with("17, the last byte 00", 545, b"\x00", 546, short)?;
    judge.refuse_with("17, header alone", 0, b"", 27, short)?;
    judge.refuse_with("17, the slice header alone", 0, b"", 31, short)?;
    judge.refuse_with("17, another slice header too", 27, b"\x89", 545, short)?;
    judge.refuse_with(
        "17, two zeros for three bytes",
        543,
        b"\x00\x00\x03",
        546,
        short,
    )?;
    let one = b"\x00\x00\x01\x25\x88\x84\x28\x68\x80";
    let held = both(MONO8.size(1, 1));
    judge.refuse(Case::new("17, of 1 by 1", one, at(0, held)), short, 3, 9)?;
    Ok(judge.tally)
}

// 18: a payload that is longer, or not of a picture's form.
pub fn formless(rt: &impl Print) -> io::Result<Tally> {
    let mut judge = Judge::new(rt);
    let form = Refusal::PictureForm;
    judge.refuse_with("18, a last byte more", 546, b"\x80", 547, form)?;
    judge.refuse_with("18, a sample more", 545, b"\x10\x80", 547, form)?;
    judge.refuse_with("18, two zeros more", 546, b"\x00\x00\x03", 549, form)?;
    judge.refuse_with(
        "18, two zeros for two bytes",
        544,
        b"\x00\x00\x03",
        547,
        form,
    )?;
    judge.refuse_with("18, a last byte 81", 545, b"\x81", 546, form)?;
    judge.refuse_with("18, a last byte 40", 545, b"\x40", 546, form)?;
    judge.refuse_with("18, a sample for the last byte", 545, b"\x10", 546, form)?;
    judge.refuse_with("18, a head for the first", 29, b"\x0D\x00", 546, form)?;
    judge.refuse_with("18, a sample for a head", 287, b"\x10\x10", 546, form)?;
    judge.refuse_bits("18, a bit of the slice header", 216..248)?;
    judge.refuse_bits("18, a bit of a macroblock's head", 2296..2312)?;
    Ok(judge.tally)
}

// What a call answers that is refused with 19, at `offset`, and stays.
fn kept(start: Reader, offset: usize) -> Wanted<'static> {
    Wanted {
        answer: Answer::Refused(Refusal::Planes, offset),
        then: start,
        planes: NO_BYTES,
    }
}

// 19: planes that are a byte short and empty, each call made where the one before it stayed; then the call with just enough.
fn colour_planes(judge: &mut Judge<'_, impl Print>, take: &[u8]) -> io::Result<()> {
    let sets = both(COLOUR8.size(16, 16));
    let start = at(20, sets);
    let kept = kept(start, 24);
    let enough = Planes {
        y: 256,
        cb: 64,
        cr: 64,
    };
    let mut case = Case::new("19, Y a byte short", take, start);
    judge.read(&mut case, Planes { y: 255, ..enough }, kept)?;
    case.name = "19, Cb a byte short";
    judge.read(&mut case, Planes { cb: 63, ..enough }, kept)?;
    case.name = "19, Cr a byte short";
    judge.read(&mut case, Planes { cr: 63, ..enough }, kept)?;
    case.name = "19, Y alone";
    judge.read(&mut case, Planes { y: 256, ..NONE }, kept)?;
    case.name = "19, no plane";
    judge.read(&mut case, NONE, kept)?;
    case.name = "19, then enough";
    let wanted = Wanted {
        answer: Answer::Picture(24),
        then: at(COLOUR, sets),
        planes: Planes {
            y: &[0x10; 256],
            cb: &[0x20; 64],
            cr: &[0x30; 64],
        },
    };
    judge.read(&mut case, enough, wanted)
}

// The same in mono, which has no use for the other planes. Of its 32 columns 17 are visible.
fn mono_planes(judge: &mut Judge<'_, impl Print>, take: &[u8]) -> io::Result<()> {
    let sets = both(MONO8.size(17, 16));
    let start = at(22, sets);
    let mut case = Case::new("19, mono, a byte short", take, start);
    judge.read(&mut case, Planes { y: 271, ..ALL }, kept(start, 26))?;
    case.name = "19, mono, then enough";
    let wanted = Wanted {
        answer: Answer::Picture(26),
        then: at(WIDE, sets),
        planes: Planes {
            y: &[0x10; 272],
            ..NO_BYTES
        },
    };
    judge.read(&mut case, Planes { y: 272, ..NONE }, wanted)
}

// Both.
pub fn planes(rt: &impl Print) -> io::Result<Tally> {
    let mut judge = Judge::new(rt);
    colour_planes(&mut judge, &colour())?;
    mono_planes(&mut judge, &wide())?;
    Ok(judge.tally)
}
