//! Where an event of a race stands.

/// Before which step, whether it is that step itself, and for a claim what orders those of one
/// place. A rank of a step has its place alone.
#[derive(Clone, Copy, Debug, PartialEq, Eq, PartialOrd, Ord)]
pub(crate) struct Rank {
    pub place: usize,
    pub late: u8,
    pub station: u8,
    pub epoch: u32,
    pub refused: u8,
    pub number: u32,
    pub log: usize,
}
