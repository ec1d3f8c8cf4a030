//! Answers in one line.

use crate::vectors::fault::VectorFault;
use std::alloc::Global;
use std::fmt;

/// Octets, shown as lowercase digits; none as `-`.
#[derive(Clone, Copy)]
pub struct Digits<'a>(pub &'a [u8]);

impl fmt::Display for Digits<'_> {
    fn fmt<W: fmt::Write>(&self, f: &mut fmt::Formatter<W>) -> fmt::Result {
        if self.0.is_empty() {
            return f.write_str("-");
        }
        for octet in self.0 {
            write!(f, "{octet:02x}")?;
        }
        Ok(())
    }
}

/// The answer that is octets.
pub fn digits_of(alloc: Global, octets: &[u8]) -> Result<String, VectorFault> {
    Ok(format!(in alloc; "{}", Digits(octets))?)
}

/// The answer that a check value, a tag or a wrap is of nothing.
pub fn fails(alloc: Global) -> Result<String, VectorFault> {
    Ok(String::from_str(alloc, "fails")?)
}

/// The answer that says why what was given is refused.
pub fn refused<D: fmt::Display>(alloc: Global, why: &D) -> Result<String, VectorFault> {
    Ok(format!(in alloc; "refused: {why}")?)
}
