// The reader as C sees it (include/reelpony.h). State and answer are eight numbers each, and any numbers are a state: those that no call leaves count as
// holding nothing. The words are those of the C interface.
ghost use Rattle.std.specs.Prelude.{◌≡◌, ◌≤◌, ◌^◌, IfSome, IsNone};
ghost use Rattle.ycbcr_image.specs.Sizes.{sequence_of};
ghost use Rattle.reader.specs.Judge.{counted};
ghost use Rattle.reader.specs.Read.{told_of, number_told, held_of, plane_length};
ghost use Rattle.reelpony.specs.Reading.{held_in, told8, sized8, held8, moved8, after8, ReadsIn};
ghost use Rattle.reelpony.specs.ReadingCode.{SaysSize};

use reader::{Answer, HeldSets, Reader, Step};
use ycbcr_image::Session;

// Nothing held.
const NOTHING: HeldSets = HeldSets {
    sps: None,
    pps: false,
};

// A word as a number of 32 bits; None where it has more.
fn short(w: u64) -> Option<u32>
    ensures some { IfSome result (λ x. x ≡ w) }
    ensures none { IsNone result → 2 ^ 32 ≤ w }
{
    u32::try_from(w).ok()
}

// The size and kind that the numbers of a state say; None where they say none that an accepted set gives.
fn session_in(ws: &[u64; 8]) -> Option<Session>
    ensures { SaysSize ws.now result }
{
    let width = short(ws[2])?;
    let height = short(ws[3])?;
    let colour = short(ws[4])?;
    let bits = short(ws[5])?;
    crate::session_of(width, height, colour, bits)
}

// The sets that a state's numbers say are held, as they count.
fn sets_in(ws: &[u64; 8]) -> HeldSets
    ensures { counted (held_of result) ≡ counted (held_in ws.now) }
{
    let sps = ws[1];
    let pps = ws[6];
    let held = 1;
    if held < sps || held < pps {
        return NOTHING;
    }
    if sps == 0 {
        return HeldSets {
            sps: None,
            pps: pps == 1,
        };
    }
    let Some(size) = session_in(ws) else {
        return NOTHING;
    };
    HeldSets {
        sps: Some(size),
        pps: pps == 1,
    }
}

// Eight numbers, of an answer or a state, with the size and kind s among them.
fn sized_words(a: u64, b: u64, s: Session, c: u64, d: u64) -> [u64; 8]
    ensures { result ≡ sized8 a b (sequence_of s) c d }
{
    let colour = s.kind.chroma_format_idc() as u64;
    let bits = s.depth.num_bits() as u64;
    [a, b, s.width as u64, s.height as u64, colour, bits, c, d]
}

// The eight numbers of an answer.
fn told_words(a: Answer) -> [u64; 8]
    ensures { result ≡ told8 (told_of a) }
{
    match a {
        Answer::End => [0, 0, 0, 0, 0, 0, 0, 0],
        Answer::Sps(o, s) => sized_words(1, o as u64, s, 0, 0),
        Answer::Pps(o) => [2, o as u64, 0, 0, 0, 0, 0, 0],
        Answer::Picture(o) => [3, o as u64, 0, 0, 0, 0, 0, 0],
        Answer::Refused(r, o) => [4, o as u64, 0, 0, 0, 0, r.number() as u64, 0],
    }
}

// The number of an answer, 0 where it is no refusal.
fn number_of(a: Answer) -> u32
    ensures { result ≡ number_told (told_of a) }
{
    match a {
        Answer::Refused(r, _) => r.number(),
        _ => 0,
    }
}

// The eight numbers of a state. A set that is held is 1, one that is missing 0.
#[tactic(auto, unfolding(crate::specs::Reading::held8))]
fn held_words(p: usize, h: HeldSets, z: u64) -> [u64; 8]
    ensures { result ≡ held8 p (held_of h) z }
{
    let pps = u64::from(h.pps);
    match h.sps {
        None => [p as u64, 0, 0, 0, 0, 0, pps, z],
        Some(s) => sized_words(p as u64, 1, s, pps, z),
    }
}

// The numbers of a state, at another place.
fn moved_words(p: usize, ws: &[u64; 8]) -> [u64; 8]
    ensures { result ≡ moved8 p ws.now }
{
    [p as u64, ws[1], ws[2], ws[3], ws[4], ws[5], ws[6], ws[7]]
}

// The numbers that a call leaves: an answer about a parameter set writes what is held anew.
fn words_after(ws: &[u64; 8], t: Step) -> [u64; 8]
    ensures { result ≡ after8 ws.now (told_of t.answer) t.reader.place (held_of t.reader.sets) }
{
    match t.answer {
        Answer::Sps(_, _) | Answer::Pps(_) => held_words(t.reader.place, t.reader.sets, ws[7]),
        Answer::End | Answer::Picture(_) | Answer::Refused(_, _) => moved_words(t.reader.place, ws),
    }
}

// The call: one answer about what stands in the take from the reader's place on. Answers a refusal's number, or 0.
pub fn reelpony_read(
    take: &[u8],
    y: &mut [u8],
    cb: &mut [u8],
    cr: &mut [u8],
    reader: &mut [u64; 8],
    answer: &mut [u64; 8],
) -> u32
    ensures { ReadsIn take.now reader.old y.old cb.old cr.old result reader.new answer.new y.new cb.new cr.new }
{
    let state = Reader {
        place: reader[0] as usize,
        sets: sets_in(&*reader),
    };
    let step = reader::read(take, state, y, cb, cr);
    *reader = words_after(&*reader, step);
    *answer = told_words(step.answer);
    number_of(step.answer)
}

// The length that the lent plane `plane` must have for a picture in this state; 0 where none is needed.
pub fn reelpony_plane_len(reader: &[u64; 8], plane: u32) -> u64
    ensures { result ≡ plane_length (held_in reader.now) plane }
{
    sets_in(reader).plane_len(plane) as u64
}
