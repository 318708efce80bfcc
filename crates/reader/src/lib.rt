// The reader: a take's units told one by one, and a picture's visible samples written into lent planes. No payload is kept: it is read by the places of the
// unit that holds it.
#![tactic(auto)]

pub mod heads;
pub mod judge;
pub mod samples;
pub mod sets;
pub mod unit;

ghost use Rattle.std.specs.Prelude.{◌≡◌};
ghost use Rattle.reader.specs.Refusals.{number};
ghost use Rattle.reader.specs.Read.{held_of, plane_length, Reads};

use nal_unit::scan;
use ycbcr_image::Session;

// The parameter sets held, the sequence parameter set as its size and kind.
#[derive(Clone, Copy, Debug, PartialEq, Eq)]
pub struct HeldSets {
    pub sps: Option<Session>,
    pub pps: bool,
}

// Where a reading stands. Any value is one; a held size or kind that no accepted parameter set gives counts as holding nothing.
#[derive(Clone, Copy, Debug, PartialEq, Eq)]
pub struct Reader {
    pub place: usize,
    pub sets: HeldSets,
}

// What a call refuses, a variant for each row of the table of 10 to 19.
#[derive(Clone, Copy, Debug, PartialEq, Eq)]
pub enum Refusal {
    // Bytes that are not all zero from the place to the next start code or the end.
    Stray = 10,
    // A unit that is empty.
    Empty = 11,
    // A unit that holds 00 00 00, 00 00 02, or 00 00 03 with a byte over 03 behind.
    Escaping = 12,
    // A unit whose first byte is not 67, 68 or 25.
    Header = 13,
    // A parameter set that is none of those that the writer writes.
    ParameterSet = 14,
    // A sequence parameter set unlike the one held.
    OtherThanHeld = 15,
    // A picture while one of the parameter sets is missing.
    NothingHeld = 16,
    // A picture whose payload is shorter than its exact length.
    PictureShort = 17,
    // One that is longer, or in which a header, the alignment, a macroblock's head or the last byte differs.
    PictureForm = 18,
    // A lent plane that the kind uses is too short for the picture.
    Planes = 19,
}

impl Refusal {
    // Its number in the table.
    pub fn number(self) -> u32
        ensures { result ≡ number self }
    {
        self as u32
    }
}

// What a call answers, with the offset where the bytes begin that it is about: the end, a sequence parameter set with its size and kind, a picture parameter
// set, a picture, whose samples are in the planes, or a refusal.
#[derive(Clone, Copy, Debug, PartialEq, Eq)]
pub enum Answer {
    End,
    Sps(usize, Session),
    Pps(usize),
    Picture(usize),
    Refused(Refusal, usize),
}

// The answer of a call, and where the reading stands then.
#[derive(Clone, Copy, Debug, PartialEq, Eq)]
pub struct Step {
    pub answer: Answer,
    pub reader: Reader,
}

impl HeldSets {
    // The length that the lent plane p must have for a picture while these sets are held: its visible rows, stored tight; 0 where the kind has no such plane,
    // or no sequence parameter set is held.
    pub fn plane_len(self, p: u32) -> usize
        ensures { result ≡ plane_length (held_of self) p }
    {
        match self.counted().sps {
            Some(q) if p <= 2 => q.tight_len(p),
            _ => 0,
        }
    }
}

// The call: one answer about what stands in the take from the reader's place on. Only an accepted picture changes the planes.
pub fn read(take: &[u8], reader: Reader, y: &mut [u8], cb: &mut [u8], cr: &mut [u8]) -> Step
    ensures { Reads take.now reader y.old cb.old cr.old result y.new cb.new cr.new }
{
    let Reader { place, sets } = reader;
    if take.len() <= place {
        return Step {
            answer: Answer::End,
            reader,
        };
    }
    let code = scan::next_code(take, place);
    if !scan::all_zero(take, place, code) {
        return Step {
            answer: Answer::Refused(Refusal::Stray, place),
            reader: Reader { place: code, sets },
        };
    }
    if take.len() <= code {
        return Step {
            answer: Answer::End,
            reader,
        };
    }
    judge::read_unit(take, reader, code + 3, y, cb, cr)
}
