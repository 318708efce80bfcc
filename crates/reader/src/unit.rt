// A unit of a take: its header byte stands at the place `begin`, and it ends at the place `end`. What makes it one (`IsUnit`) stays a `requires`: its public
// methods are named in docs/ANSWERS.md, and keep what they ask.
#[derive(Clone, Copy, Debug, PartialEq, Eq)]
pub struct NalUnit<'a> {
    pub take: &'a [u8],
    pub begin: usize,
    pub end: usize,
}
