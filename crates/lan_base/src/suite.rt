//! Cipher suites (IEEE Std 802.1AE, clause 14).

ghost use Rattle.std.specs.Prelude.{◌≡◌};
ghost use Rattle.lan_base.specs.Suites.{key_bits, suite_of, sak_draws};

/// The cipher suite that data frames are protected under: AES in Galois counter mode, with keys of
/// 128 or of 256 bits.
#[derive(Clone, Copy, Debug, PartialEq, Eq)]
pub enum Suite {
    GcmAes128,
    GcmAes256,
}

impl Suite {
    /// The suite whose keys have so many bits.
    pub fn of(bits: u32) -> Option<Self>
        ensures { result ≡ suite_of bits }
    {
        match bits {
            128 => Some(Suite::GcmAes128),
            256 => Some(Suite::GcmAes256),
            _ => None,
        }
    }

    /// How many bits a key of the suite has.
    pub fn key_bits(self) -> u32
        ensures { result ≡ key_bits self }
    {
        match self {
            Suite::GcmAes128 => 128,
            Suite::GcmAes256 => 256,
        }
    }

    /// How many drawn values of 128 bits a key of the suite is made of.
    pub fn sak_draws(self) -> u64
        ensures { result ≡ sak_draws self }
    {
        match self {
            Suite::GcmAes128 => 1,
            Suite::GcmAes256 => 2,
        }
    }
}
