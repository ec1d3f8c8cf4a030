//! The octets of a key of either length.

use std::fmt;

/// The octets of a cipher key of 128 or 256 bits (FIPS 197, section 5). Contracts speak of them by
/// `secret_octets`.
#[derive(Clone, Copy, PartialEq, Eq)]
pub enum Secret {
    S128([u8; 16]),
    S256([u8; 32]),
}

impl fmt::Debug for Secret {
    ghost use Rattle.std.specs.Prelude.{Some};
    ghost use Rattle.aes_block.specs.Secrets.{secret_text};

    ghost debug_output = { λ secret. Some (secret_text secret) };

    /// Says how long the secret is, and nothing of its octets.
    fn fmt<W: fmt::Write>(&self, f: &mut fmt::Formatter<W>) -> fmt::Result {
        match self {
            Secret::S128(_) => f.write_str("Secret(128 bits)"),
            Secret::S256(_) => f.write_str("Secret(256 bits)"),
        }
    }
}

impl Secret {
    ghost use Rattle.std.specs.Prelude.{◌≡◌};
    ghost use Rattle.aes_block.specs.Secrets.{secret_octets};

    /// Its 16 or 32 octets.
    pub fn octets(&self) -> &[u8]
        ensures { result.now ≡ secret_octets self.now }
    {
        match self {
            Secret::S128(octets) => octets,
            Secret::S256(octets) => octets,
        }
    }
}
