// The refusals 10 to 16, each by its smallest inputs.
use crate::judge::{Case, Judge};
use crate::plain::{flip, put, wide};
use crate::state::{COLOUR8, MONO8, MONO12, NOTHING, PPS_ONLY, at, both, sps_only};
use reader::{Answer, Refusal};
use std::io;
use std::ops::Range;
use tally::Tally;
use ycbcr_image::Session;

impl<R: Print> Judge<'_, R> {
    // Has the first call refused where no set is held, where each one is alone, and where both are.
    fn refuse_first(
        &mut self,
        name: &str,
        take: &[u8],
        refusal: Refusal,
        offset: usize,
        next: usize,
    ) -> io::Result<()> {
        let size = MONO8.size(16, 16);
        for sets in [NOTHING, PPS_ONLY, sps_only(size), both(size)] {
            self.refuse(Case::new(name, take, at(0, sets)), refusal, offset, next)?;
        }
        Ok(())
    }

    // Has a set refused with 14 where the bit number `k` of it is changed; it stands alone behind a start code of four bytes. (The copy lies in an array: a Vec
    // would ask for an allocator, and this for one more error to tell.)
    fn refuse_flipped(&mut self, name: &str, set: &[u8], k: usize) -> io::Result<()> {
        let mut take = [0; 32];
        put(&mut take, 0, set);
        flip(&mut take, k);
        let n = set.len().min(take.len());
        self.refuse_first(name, &take[..n], Refusal::ParameterSet, 4, n)
    }

    // The same of each of these bits. (A loop of its own, as the pictures' bits have one: to take the step as a closure would be longer.)
    fn refuse_set_bits(&mut self, name: &str, set: &[u8], bits: Range<usize>) -> io::Result<()> {
        for k in bits {
            self.refuse_flipped(name, set, k)?;
        }
        Ok(())
    }

    // Has a sequence parameter set behind a start code of four bytes refused with 15 where one of the size and kind `held` is held.
    fn refuse_other(&mut self, name: &str, take: &[u8], held: Session) -> io::Result<()> {
        let n = take.len();
        self.refuse(
            Case::new(name, take, at(0, sps_only(held))),
            Refusal::OtherThanHeld,
            4,
            n,
        )?;
        self.refuse(
            Case::new(name, take, at(0, both(held))),
            Refusal::OtherThanHeld,
            4,
            n,
        )
    }

    // Has a picture refused with 16 while a set is missing.
    fn refuse_missing(
        &mut self,
        name: &str,
        take: &[u8],
        place: usize,
        offset: usize,
    ) -> io::Result<()> {
        for sets in [NOTHING, sps_only(MONO8.size(17, 16)), PPS_ONLY] {
            self.refuse(
                Case::new(name, take, at(place, sets)),
                Refusal::NothingHeld,
                offset,
                take.len(),
            )?;
        }
        Ok(())
    }
}

// 10: bytes that belong to no unit. The offset is the place, and the next place is the start code found, or the end.
pub fn stray(rt: &impl Print) -> io::Result<Tally> {
    let mut judge = Judge::new(rt);
    judge.refuse_first("10, one byte", b"\x05", Refusal::Stray, 0, 1)?;
    judge.refuse_first("10, one byte 01", b"\x01", Refusal::Stray, 0, 1)?;
    judge.refuse_first(
        "10, a byte behind a zero",
        b"\x00\x01",
        Refusal::Stray,
        0,
        2,
    )?;
    judge.refuse_first(
        "10, a byte behind two zeros",
        b"\x00\x00\x02",
        Refusal::Stray,
        0,
        3,
    )?;
    judge.refuse_first("10, zeros behind", b"\x05\x00\x00", Refusal::Stray, 0, 3)?;
    judge.refuse_first(
        "10, before a start code",
        b"\x05\x00\x00\x01\x68\xCE\x38\x80",
        Refusal::Stray,
        0,
        1,
    )?;
    judge.refuse_first(
        "10, before a start code of four bytes",
        b"\x00\x05\x00\x00\x00\x01\x68\xCE\x38\x80",
        Refusal::Stray,
        0,
        3,
    )?;
    judge.refuse(
        Case::new(
            "10, within a unit, before another",
            b"\x00\x00\x01\x68\xCE\x38\x80\x00\x00\x01\x68\xCE\x38\x80",
            at(4, NOTHING),
        ),
        Refusal::Stray,
        4,
        7,
    )?;
    Ok(judge.tally)
}

// 11: an empty unit.
pub fn empty(rt: &impl Print) -> io::Result<Tally> {
    let mut judge = Judge::new(rt);
    judge.refuse_first("11, a start code", b"\x00\x00\x01", Refusal::Empty, 3, 3)?;
    judge.refuse_first(
        "11, one of four bytes",
        b"\x00\x00\x00\x01",
        Refusal::Empty,
        4,
        4,
    )?;
    judge.refuse_first(
        "11, zeros behind",
        b"\x00\x00\x01\x00\x00\x00",
        Refusal::Empty,
        3,
        6,
    )?;
    judge.refuse_first(
        "11, two start codes",
        b"\x00\x00\x01\x00\x00\x01\x68\xCE\x38\x80",
        Refusal::Empty,
        3,
        3,
    )?;
    judge.refuse_first(
        "11, two of four bytes",
        b"\x00\x00\x00\x01\x00\x00\x00\x01\x68\xCE\x38\x80",
        Refusal::Empty,
        4,
        5,
    )?;
    Ok(judge.tally)
}

// 12: what no escape has. It goes before 13 and 14.
pub fn unescaped(rt: &impl Print) -> io::Result<Tally> {
    let mut judge = Judge::new(rt);
    judge.refuse_first(
        "12, 00 00 03 04",
        b"\x00\x00\x01\x68\x00\x00\x03\x04",
        Refusal::Escaping,
        3,
        8,
    )?;
    judge.refuse_first(
        "12, 00 00 03 FF",
        b"\x00\x00\x01\x68\x00\x00\x03\xFF",
        Refusal::Escaping,
        3,
        8,
    )?;
    judge.refuse_first(
        "12, 00 00 02",
        b"\x00\x00\x01\x68\x00\x00\x02",
        Refusal::Escaping,
        3,
        7,
    )?;
    judge.refuse_first(
        "12, 00 00 00",
        b"\x00\x00\x01\x68\x00\x00\x00\x04",
        Refusal::Escaping,
        3,
        8,
    )?;
    judge.refuse_first(
        "12, header 00",
        b"\x00\x00\x01\x00\x00\x02",
        Refusal::Escaping,
        3,
        6,
    )?;
    judge.refuse_first(
        "12, another header",
        b"\x00\x00\x01\x41\x00\x00\x02",
        Refusal::Escaping,
        3,
        7,
    )?;
    judge.refuse_first(
        "12, behind an inserted byte",
        b"\x00\x00\x01\x68\x00\x00\x03\x00\x00\x02\x00\x00\x01",
        Refusal::Escaping,
        3,
        10,
    )?;
    judge.refuse_first(
        "12, a whole set before it",
        b"\x00\x00\x01\x68\xCE\x38\x80\x00\x00\x03\x04",
        Refusal::Escaping,
        3,
        11,
    )?;
    Ok(judge.tally)
}

// 13: another header. It goes before 14.
pub fn headers(rt: &impl Print) -> io::Result<Tally> {
    let mut judge = Judge::new(rt);
    judge.refuse_first("13, header 41", b"\x00\x00\x01\x41", Refusal::Header, 3, 4)?;
    judge.refuse_first(
        "13, header 00",
        b"\x00\x00\x01\x00\x05",
        Refusal::Header,
        3,
        5,
    )?;
    judge.refuse_first(
        "13, 00 00 03",
        b"\x00\x00\x01\x00\x00\x03",
        Refusal::Header,
        3,
        6,
    )?;
    judge.refuse_first(
        "13, 00 00 03 03",
        b"\x00\x00\x01\x00\x00\x03\x03",
        Refusal::Header,
        3,
        7,
    )?;
    judge.refuse_first("13, header 01", b"\x00\x00\x01\x01", Refusal::Header, 3, 4)?;
    judge.refuse_first("13, header 65", b"\x00\x00\x01\x65", Refusal::Header, 3, 4)?;
    judge.refuse_first("13, header A5", b"\x00\x00\x01\xA5", Refusal::Header, 3, 4)?;
    judge.refuse_first(
        "13, header 06",
        b"\x00\x00\x01\x06\x05\x80",
        Refusal::Header,
        3,
        6,
    )?;
    judge.refuse_first(
        "13, header 48",
        b"\x00\x00\x01\x48\xCE\x38\x80",
        Refusal::Header,
        3,
        7,
    )?;
    judge.refuse_first(
        "13, header 27",
        b"\x00\x00\x00\x01\x27\x64\x00\x0A\xF3\xDC\x9B\x01\x00\x00\x01",
        Refusal::Header,
        4,
        12,
    )?;
    Ok(judge.tally)
}

// 14: a sequence parameter set with a bit changed, cut short, and longer; one with another level.
fn sequences(judge: &mut Judge<'_, impl Print>) -> io::Result<()> {
    judge.refuse_set_bits(
        "14, SPS, a bit",
        b"\x00\x00\x00\x01\x67\x64\x00\x0A\xF3\xDC\x9B\x01",
        40..96,
    )?;
    judge.refuse_first(
        "14, SPS, header alone",
        b"\x00\x00\x01\x67",
        Refusal::ParameterSet,
        3,
        4,
    )?;
    judge.refuse_first(
        "14, SPS, a byte short",
        b"\x00\x00\x01\x67\x64\x00\x0A\xF3\xDC\x9B",
        Refusal::ParameterSet,
        3,
        10,
    )?;
    judge.refuse_first(
        "14, SPS, a byte longer",
        b"\x00\x00\x01\x67\x64\x00\x0A\xF3\xDC\x9B\x01\x80",
        Refusal::ParameterSet,
        3,
        12,
    )?;
    judge.refuse_first(
        "14, SPS, two zeros longer",
        b"\x00\x00\x01\x67\x64\x00\x0A\xF3\xDC\x9B\x01\x00\x00\x03",
        Refusal::ParameterSet,
        3,
        14,
    )?;
    judge.refuse_first(
        "14, SPS, another level",
        b"\x00\x00\x01\x67\x64\x00\x0B\xF3\xCB\x61\x0E\x6C\x04\x00\x00\x01",
        Refusal::ParameterSet,
        3,
        13,
    )
}

// The same of a picture parameter set.
pub fn forms(rt: &impl Print) -> io::Result<Tally> {
    let mut judge = Judge::new(rt);
    sequences(&mut judge)?;
    judge.refuse_set_bits(
        "14, PPS, a bit",
        b"\x00\x00\x00\x01\x68\xCE\x38\x80",
        40..64,
    )?;
    judge.refuse_first(
        "14, PPS, header alone",
        b"\x00\x00\x01\x68",
        Refusal::ParameterSet,
        3,
        4,
    )?;
    judge.refuse_first(
        "14, PPS, a byte short",
        b"\x00\x00\x01\x68\xCE\x38",
        Refusal::ParameterSet,
        3,
        6,
    )?;
    judge.refuse_first(
        "14, PPS, a byte longer",
        b"\x00\x00\x01\x68\xCE\x38\x80\x80",
        Refusal::ParameterSet,
        3,
        8,
    )?;
    judge.refuse_first(
        "14, PPS, two zeros longer",
        b"\x00\x00\x01\x68\xCE\x38\x80\x00\x00\x03",
        Refusal::ParameterSet,
        3,
        10,
    )?;
    Ok(judge.tally)
}

// 15: a sequence parameter set of another size or kind. The last differs in a single bit from that of 17 by 16, and where none is held it is taken.
pub fn others(rt: &impl Print) -> io::Result<Tally> {
    let mut judge = Judge::new(rt);
    let mono = b"\x00\x00\x00\x01\x67\x64\x00\x0A\xF3\xDC\x9B\x01";
    judge.refuse_other("15, another width", mono, MONO8.size(17, 16))?;
    judge.refuse_other("15, another height", mono, MONO8.size(16, 15))?;
    judge.refuse_other("15, another depth", mono, MONO12.size(16, 16))?;
    judge.refuse_other("15, another kind", mono, COLOUR8.size(16, 16))?;
    judge.refuse_other(
        "15, mono 12",
        b"\x00\x00\x00\x01\x67\xF4\x00\x0A\xCA\x53\xDC\x9B\x01",
        MONO8.size(16, 16),
    )?;
    judge.refuse_other(
        "15, colour 8",
        b"\x00\x00\x00\x01\x67\x42\x00\x0A\xFB\x93\x60\x20",
        MONO8.size(16, 16),
    )?;
    judge.refuse_other(
        "15, colour 12",
        b"\x00\x00\x00\x01\x67\xF4\x00\x0A\xA2\x94\xF7\x26\xC0\x40",
        COLOUR8.size(16, 16),
    )?;
    let one = b"\x00\x00\x00\x01\x67\x64\x00\x0A\xF3\xCF\x61\x0E\x6C\x04";
    judge.refuse_other("15, 33 by 16 for 17 by 16", one, MONO8.size(17, 16))?;
    judge.once(
        Case::new("15, 33 by 16 for none", one, at(0, NOTHING)),
        Answer::Sps(4, MONO8.size(33, 16)),
        at(14, sps_only(MONO8.size(33, 16))),
    )?;
    Ok(judge.tally)
}

// 16: a picture while no set, or only one, is held. It goes before 17.
pub fn missing(rt: &impl Print) -> io::Result<Tally> {
    let mut judge = Judge::new(rt);
    judge.refuse_missing("16, a picture", &wide(), 22, 26)?;
    judge.refuse_missing("16, header alone", b"\x00\x00\x01\x25", 0, 3)?;
    Ok(judge.tally)
}
