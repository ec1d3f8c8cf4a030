//! Numbers of the layout of a frame (IEEE Std 802.1X, clause 11).

/// The octets before the parameter sets: addresses, EtherType and EAPOL header.
pub const HEADER_LEN: usize = 18;

/// The octets of a check value (ICV).
pub const CHECK_LEN: usize = 16;

/// The algorithm agility of the one set of algorithms that there is.
pub const AGILITY: [u8; 4] = [0x00, 0x80, 0xc2, 0x01];

/// The type of the Live Peer List.
pub const LIVE_PEERS: u8 = 1;

/// The type of the Potential Peer List.
pub const POTENTIAL_PEERS: u8 = 2;

/// The type of MACsec SAK Use.
pub const SAK_USE: u8 = 3;

/// The type of Distributed SAK.
pub const DISTRIBUTED_SAK: u8 = 4;

/// The type of the set of parameters of extended packet numbers (XPN).
pub const XPN_PARAMETERS: u8 = 8;

/// The type of the ICV Indicator, whose body is the check value.
pub const ICV_INDICATOR: u8 = 255;
