//! The order of octets of a file.

/// In which order the octets of a file's numbers stand.
#[derive(Clone, Copy, Debug, PartialEq, Eq)]
pub enum Order {
    /// The octet of greatest value first.
    Big,
    /// The octet of least value first.
    Little,
}
