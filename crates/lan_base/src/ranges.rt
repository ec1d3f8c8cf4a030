//! Ranges that several crates speak of.

ghost use Rattle.std.specs.Prelude.{◌≡◌, ◌↔◌, IsTrue};
ghost use Rattle.lan_base.specs.Ranges.{IsCkn, IsUserData, least_user_octets, most_ckn_octets, most_frame_octets, most_frames, most_input, most_ticks, most_user_octets};

/// The most octets of a CKN, the name of a connectivity association key (IEEE Std 802.1X, 9.3.1).
pub const CKN_MAX: usize = 32;

/// The fewest octets of user data in a frame, its EtherType.
pub const USER_DATA_MIN: usize = 2;

/// The most octets of user data in a frame.
pub const USER_DATA_MAX: usize = 1500;

/// The most octets that are foreign, and those of a frame that is protected.
pub const FRAME_MAX: usize = 65_536;

/// The most frames that a group puts on the air.
pub const FRAMES_MAX: u32 = 200_000;

/// The most ticks of a group, at all its stations.
pub const TICKS_MAX: u32 = 1_000_000;

/// The most octets of a transcript or of a file of captured packets.
pub const INPUT_MAX: usize = 268_435_456;

/// The ranges of the code are those of the definitions.
pub fn law_ranges()
    ensures ckn { CKN_MAX ≡ most_ckn_octets }
    ensures least { USER_DATA_MIN ≡ least_user_octets }
    ensures most { USER_DATA_MAX ≡ most_user_octets }
    ensures frame { FRAME_MAX ≡ most_frame_octets }
    ensures frames { FRAMES_MAX ≡ most_frames }
    ensures ticks { TICKS_MAX ≡ most_ticks }
    ensures input { INPUT_MAX ≡ most_input }
{}

/// Whether these octets may be a CKN: there are 1 to 32.
pub fn is_ckn(octets: &[u8]) -> bool
    ensures { IsTrue result ↔ IsCkn octets.now }
{
    !octets.is_empty() && octets.len() <= CKN_MAX
}

/// Whether these octets may be the user data of a frame: there are 2 to 1,500.
pub fn is_user_data(octets: &[u8]) -> bool
    ensures { IsTrue result ↔ IsUserData octets.now }
{
    USER_DATA_MIN <= octets.len() && octets.len() <= USER_DATA_MAX
}
