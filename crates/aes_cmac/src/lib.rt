//! Message authentication by CMAC over AES (NIST SP 800-38B).
#![tactic(auto)]

mod block;
mod running;
mod whole;

pub use running::Running;
pub use whole::cmac;
