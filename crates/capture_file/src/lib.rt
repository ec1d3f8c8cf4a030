//! Files of captured packets in the classic pcap format: written, read in either order of octets, and
//! each packet told in one line.
#![tactic(auto)]

mod describing;
mod fault;
mod laws;
mod order;
mod reading;
mod writing;

pub use describing::{describe, put_malformed, put_tag};
pub use fault::CaptureFault;
pub use laws::law_capture;
pub use order::Order;
pub use reading::{KEPT_MAX, NANO_MAGIC, head, kept};
pub use writing::{ETHERNET, HEAD_LEN, HEADER_LEN, MICRO_MAGIC, WRITTEN_MAX, header, packet};
