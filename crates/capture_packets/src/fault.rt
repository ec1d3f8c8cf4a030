//! Why a file is not read further.

use text_lines::End;
use thiserror::Error;

/// Why a file of captured packets is not read further: the first of these that applies.
#[derive(Clone, Copy, Debug, PartialEq, Eq, Error)]
pub enum CaptureFault {
    /// The file begins with no magic number of the two formats.
    #[error("no file of captured packets")]
    Magic,
    /// The packets of a classic file are not those of Ethernet.
    #[error("the link type is not Ethernet")]
    LinkType,
    /// The file ends inside its head, a record or a block.
    #[error("the file is cut")]
    Cut,
    /// More octets were kept than are read of a packet.
    #[error("a packet is too long")]
    Length,
    /// A block has not the form of its type, or is an old packet block.
    #[error("a block has not its form")]
    Block,
    /// A packet names an interface that its section has not.
    #[error("a packet has no interface")]
    Interface,
}

/// Why a file is not read to its end. Its head is refused, or the record or block that begins at this octet
/// of it.
pub type FileEnd = End<(u32, CaptureFault)>;
