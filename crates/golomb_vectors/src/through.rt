// Codes read through the bit reader: a reader of the payload is made, moved to the place, and read. One function for each kind of code, as the reader has.
ghost use Rattle.std.specs.Prelude.{◌≡◌};
ghost use Rattle.golomb.specs.Answers.{read_ue, read_se};

use golomb::bit_reader::BitReader;

// The unsigned code at `place`.
pub fn ue(payload: &[u8], place: usize) -> Option<(u32, usize)>
    ensures { result ≡ read_ue payload.now place }
{
    BitReader::new(payload).moved(place).ue()
}

// The signed code at `place`.
pub fn se(payload: &[u8], place: usize) -> Option<(i32, usize)>
    ensures { result ≡ read_se payload.now place }
{
    BitReader::new(payload).moved(place).se()
}
