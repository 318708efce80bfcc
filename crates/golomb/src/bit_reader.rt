// A bit reader over one lent payload with its place. Each method is thin: it calls the function on the slice and the number. The
// answers hold the place behind what was read; `moved` puts the reader there.
ghost use Rattle.std.specs.Prelude.{◌≡◌};
ghost use Rattle.golomb.specs.Answers.{read_ue, read_se, read_u};

#[derive(Clone, Copy, Debug, PartialEq, Eq)]
pub struct BitReader<'a> {
    pub payload: &'a [u8],
    pub place: usize,
}

impl<'a> BitReader<'a> {
    // A reader at the payload's first bit.
    pub fn new(payload: &'a [u8]) -> BitReader<'a>
        ensures { (result.payload ≡ payload.entry) × (result.place ≡ 0) }
    {
        BitReader { payload, place: 0 }
    }

    // The reader's place.
    pub fn place(self) -> usize
        ensures { result ≡ self.entry.place }
    {
        self.place
    }

    // The reader at another place: how bits are skipped.
    pub fn moved(self, place: usize) -> BitReader<'a>
        ensures { (result.payload ≡ self.entry.payload) × (result.place ≡ place) }
    {
        BitReader { place, ..self }
    }

    // Reads an unsigned code.
    pub fn ue(self) -> Option<(u32, usize)>
        ensures { result ≡ read_ue self.entry.payload.now self.entry.place }
    {
        crate::read_ue(self.payload, self.place)
    }

    // Reads a signed code.
    pub fn se(self) -> Option<(i32, usize)>
        ensures { result ≡ read_se self.entry.payload.now self.entry.place }
    {
        crate::read_se(self.payload, self.place)
    }

    // Reads `n` bits as a number.
    pub fn bits(self, n: usize) -> Option<(u64, usize)>
        ensures { result ≡ read_u self.entry.payload.now self.entry.place n }
    {
        crate::read_u(self.payload, self.place, n)
    }
}
