//! Files of captured packets, in the classic pcap format and in pcapng, are one list of packets with
//! times.
#![tactic(auto)]

mod block;
mod fault;
mod head;
mod laws;
mod numbers;
mod options;
mod packet;
mod packet_block;
mod reader;
mod record;
mod state;
mod taking;

pub use fault::{CaptureFault, FileEnd};
pub use head::begins_file;
pub use laws::{law_front, law_one_list};
pub use packet::{Packet, PacketHead};
pub use reader::PacketReader;
