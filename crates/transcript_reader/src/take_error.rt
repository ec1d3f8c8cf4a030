//! Why a fact is not taken.

/// Why a fact is not taken.
#[derive(Drop)]
pub enum TakeError<F: Drop> {
    /// It is refused, and its line with it.
    Refused(F),
    /// The outlet failed.
    Failed,
    /// Memory ran out.
    Memory,
}
