// What the reader makes of a unit: refusals 11 to 19, a function for each kind of unit. Each answers with the reader's next state. The lent planes stay three
// parameters, as in samples.rt and in the call.
ghost use Rattle.std.specs.Prelude.{◌≡◌, true, ◌+◌, ◌≤◌, length, drop};
ghost use Rattle.nal_unit.specs.Kept.{ins_count};
ghost use Rattle.nal_unit.specs.StartCode.{next};
ghost use Rattle.nal_unit.specs.ScanCode.{unit_of};
ghost use Rattle.parameter_sets.specs.Sps.{base_level};
ghost use Rattle.parameter_sets.specs.Read.{read_sps};
ghost use Rattle.slice.specs.Picture.{picture_length};
ghost use Rattle.ycbcr_image.specs.Sizes.{sequence_of};
ghost use Rattle.ycbcr_image.specs.Refusals.{accepted};
ghost use Rattle.reader.specs.Judge.{refused, counted, keep, sps_verdict, pps_verdict, short, formless, held_verdict, judge};
ghost use Rattle.reader.specs.Refusals.{number};
ghost use Rattle.reader.specs.Units.{IsUnit, payload_of};
ghost use Rattle.reader.specs.Read.{held_of, rooms};
ghost use Rattle.reader.specs.ReadCode.{Judged, Shown};

use crate::unit::NalUnit;
use crate::{Answer, HeldSets, Reader, Refusal, Step};
use nal_unit::{scan, taking};
use ycbcr_image::Session;

impl HeldSets {
    // What the held sets count as: nothing, where their size or kind is none that an accepted parameter set gives.
    pub fn counted(self) -> HeldSets
        ensures { held_of result ≡ counted (held_of self) }
    {
        match self.sps {
            Some(q) if !q.is_accepted() => HeldSets {
                sps: None,
                pps: false,
            },
            _ => self,
        }
    }
}

// A unit that a call of this reader has found, and where the next start code is, or the end.
#[derive(Clone, Copy)]
struct Found<'a> {
    unit: NalUnit<'a>,
    reader: Reader,
    next: usize,
}

impl Found<'_> {
    // A refusal, which keeps the held sets and moves on.
    fn refused(self, refusal: Refusal) -> Step
        ensures { Judged (keep (held_of self.entry.reader.sets) (refused (number refusal))) self.entry.reader.place self.entry.unit.begin self.entry.next result }
    {
        Step {
            answer: Answer::Refused(refusal, self.unit.begin),
            reader: Reader {
                place: self.next,
                ..self.reader
            },
        }
    }

    // A unit with the header of a sequence parameter set: held from now on where none is, else compared with the one that is held.
    fn sps(self) -> Step
        requires { IsUnit self.unit }
        ensures { Judged (sps_verdict (held_of self.entry.reader.sets) (counted (held_of self.entry.reader.sets)) (read_sps base_level (payload_of self.entry.unit))) self.entry.reader.place self.entry.unit.begin self.entry.next result }
    {
        let Some(sps) = self.unit.read_sps() else {
            return self.refused(Refusal::ParameterSet);
        };
        let counted = self.reader.sets.counted();
        let sets = match counted.sps {
            None => HeldSets {
                sps: Some(sps),
                ..counted
            },
            Some(held) => {
                if held.differs(sps) {
                    return self.refused(Refusal::OtherThanHeld);
                }
                self.reader.sets
            }
        };
        Step {
            answer: Answer::Sps(self.unit.begin, sps),
            reader: Reader {
                place: self.next,
                sets,
            },
        }
    }

    // A unit with the header of a picture parameter set.
    fn pps(self) -> Step
        requires { IsUnit self.unit }
        ensures { Judged (pps_verdict (held_of self.entry.reader.sets) (counted (held_of self.entry.reader.sets)) (payload_of self.entry.unit)) self.entry.reader.place self.entry.unit.begin self.entry.next result }
    {
        if !self.unit.is_pps() {
            return self.refused(Refusal::ParameterSet);
        }
        Step {
            answer: Answer::Pps(self.unit.begin),
            reader: Reader {
                place: self.next,
                sets: HeldSets {
                    pps: true,
                    ..self.reader.sets.counted()
                },
            },
        }
    }

    // What 18 looks at in a payload that is not shorter than a picture's of the size and kind q: n is its length, m the picture's, and no inserted byte stands
    // in the unit from the place `calm` on.
    fn is_formless(self, calm: usize, q: Session, n: usize, m: usize) -> bool
        requires unit_at { IsUnit self.unit }
        requires q_value { accepted (sequence_of q) ≡ true }
        requires n_value { (n ≡ length (payload_of self.unit)) × (m ≡ picture_length (sequence_of q)) × (m ≤ n) }
        requires stop_value { ins_count self.unit.take.now calm self.unit.end ≡ 0 }
        ensures { result ≡ formless (sequence_of q) (payload_of self.entry.unit) }
    {
        m < n || !self.unit.is_right(calm, q)
    }

    // A unit with the header of a picture, in which no inserted byte stands from the place `calm` on.
    fn picture(self, calm: usize, y: &mut [u8], cb: &mut [u8], cr: &mut [u8]) -> Step
        requires unit_at { IsUnit self.unit }
        requires stop_value { ins_count self.unit.take.now calm self.unit.end ≡ 0 }
        ensures { Shown (held_verdict (rooms y.old cb.old cr.old) (held_of self.entry.reader.sets) (counted (held_of self.entry.reader.sets)) (payload_of self.entry.unit)) self.entry.reader.place self.entry.unit.begin self.entry.next result y.old y.new cb.old cb.new cr.old cr.new }
    {
        let held = self.reader.sets.counted();
        let Some(q) = held.sps else {
            return self.refused(Refusal::NothingHeld);
        };
        if !held.pps {
            return self.refused(Refusal::NothingHeld);
        }
        let n = taking::payload_len_to(self.unit.take, self.unit.begin, self.unit.end, calm);
        let m = slice::payload_len(q);
        if n < m {
            return self.refused(Refusal::PictureShort);
        }
        if self.is_formless(calm, q, n, m) {
            return self.refused(Refusal::PictureForm);
        }
        if is_short(q, y, cb, cr) {
            return Step {
                answer: Answer::Refused(Refusal::Planes, self.unit.begin),
                reader: self.reader,
            };
        }
        self.unit.take_samples(calm, q, y, cb, cr);
        Step {
            answer: Answer::Picture(self.unit.begin),
            reader: Reader {
                place: self.next,
                ..self.reader
            },
        }
    }
}

// Whether a lent plane that the kind uses has fewer bytes than its visible rows, stored tight.
#[tactic(auto, unfolding(crate::specs::Judge::short, crate::specs::Read::room_of))]
fn is_short(q: Session, y: &[u8], cb: &[u8], cr: &[u8]) -> bool
    requires { accepted (sequence_of q) ≡ true }
    ensures { result ≡ short (rooms y.now cb.now cr.now) (sequence_of q) }
{
    y.len() < q.tight_len(0) || cb.len() < q.tight_len(1) || cr.len() < q.tight_len(2)
}

// The unit whose bytes begin at `begin`, behind its start code, in a call of this reader: 11 and 12 first, then by its header, 13 where it is none of the three.
pub fn read_unit(
    take: &[u8],
    reader: Reader,
    begin: usize,
    y: &mut [u8],
    cb: &mut [u8],
    cr: &mut [u8],
) -> Step
    requires { (1 ≤ begin) × (begin ≤ length take.now) }
    ensures { Shown (judge (rooms y.old cb.old cr.old) (held_of reader.sets) (unit_of (drop begin take.now))) reader.place begin (begin + next (drop begin take.now)) result y.old y.new cb.old cb.new cr.old cr.new }
{
    let scanned = scan::unit_scan(take, begin);
    let unit = NalUnit {
        take,
        begin,
        end: scanned.stop,
    };
    let found = Found {
        unit,
        reader,
        next: scanned.end,
    };
    if scanned.stop <= begin {
        return found.refused(Refusal::Empty);
    }
    let Some(calm) = scanned.calm else {
        return found.refused(Refusal::Escaping);
    };
    match take[begin] {
        0x67 => found.sps(),
        0x68 => found.pps(),
        0x25 => found.picture(calm, y, cb, cr),
        _ => found.refused(Refusal::Header),
    }
}
