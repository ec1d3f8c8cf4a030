//! The lines of a member's input.

use lan_base::{Name, Octets, Sci};
use trace_text::Line;

/// One line of a member's input.
#[derive(Drop)]
pub enum MemberLine {
    /// A line as in a trace: `group`, `draws`, `conf`, `rekey`, `suite`, `flag` or `restart`.
    Plain(Line),
    /// `member NAME SCI P`: the one station starts, with a priority of 0 to 255.
    Member { name: Name, sci: Sci, priority: u32 },
    /// `tick NEXT LATEST OLD`: 0.1 s passed. The next packet number under the transmitting key, up to
    /// 2^32, which says that none is left; the lowest acceptable packet number under the latest and
    /// under the old key, the greatest over all channels.
    Tick { next: u64, latest: u32, old: u32 },
    /// `hear OCTETS`: 1 to 1,600 octets of a frame came.
    Hear { octets: Octets },
}
