//! Why a file is not read further.

use thiserror::Error;

/// Why a file of captured packets is not read further.
#[derive(Clone, Copy, Debug, PartialEq, Eq, Error)]
pub enum CaptureFault {
    /// The file begins with no magic number of the classic format.
    #[error("no file of the classic pcap format")]
    Magic,
    /// The packets are not those of Ethernet.
    #[error("the link type is not Ethernet")]
    LinkType,
    /// The file ends inside its head, a record's header or its octets.
    #[error("the file is cut")]
    Cut,
    /// A record says that more octets were kept than are read of a packet.
    #[error("a packet is too long")]
    Length,
}
