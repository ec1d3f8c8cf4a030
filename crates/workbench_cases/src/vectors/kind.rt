//! The kinds of vectors.

use crate::vectors::fault::VectorFault;
use std::str::FromStr;

/// What a vector asks for, by its first word.
#[derive(Clone, Copy)]
pub enum Kind {
    Aes,
    Unaes,
    Cmac,
    Gcm,
    Ungcm,
    Wrap,
    Unwrap,
    Kdf,
    Kek,
    Ick,
    Protect,
    Open,
    OpenXpn,
    Mka,
    Rewrite,
}

impl FromStr for Kind {
    type Err = VectorFault;

    /// The kind with this name.
    fn from_str(word: &str) -> Result<Kind, VectorFault> {
        Ok(match word {
            "aes" => Kind::Aes,
            "unaes" => Kind::Unaes,
            "cmac" => Kind::Cmac,
            "gcm" => Kind::Gcm,
            "ungcm" => Kind::Ungcm,
            "wrap" => Kind::Wrap,
            "unwrap" => Kind::Unwrap,
            "kdf" => Kind::Kdf,
            "kek" => Kind::Kek,
            "ick" => Kind::Ick,
            "protect" => Kind::Protect,
            "open" => Kind::Open,
            "openxpn" => Kind::OpenXpn,
            "mka" => Kind::Mka,
            "rewrite" => Kind::Rewrite,
            _ => return Err(VectorFault::Kind),
        })
    }
}
