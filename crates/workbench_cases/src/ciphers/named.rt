//! The tests and their names.

ghost use Rattle.std.specs.Prelude.{◌≡◌, ◌≢◌, MatchResult};
ghost use Rattle.workbench_cases.specs.Names.{name};

use anyhow::bail;
use std::str::FromStr;

/// What is done again and again.
#[derive(Clone, Copy)]
pub enum Test {
    /// A block becomes its ciphertext.
    Block,
    /// The same under a key of 256 bits.
    LongKeyBlock,
    /// The CMAC of a message, whose first octet the last value changes.
    Cmac,
    /// The tag of a text that is sealed under the next IV, with data whose first octet the last tag
    /// changes.
    Gcm(Frame),
    /// The same of the greatest frame, under a key of 256 bits.
    LongKeyGcm,
    /// A frame of 1,500 octets is protected under the next packet number, to a destination whose
    /// first octet the last tag changes.
    Protect,
    /// One of two such frames is received, by the packet number that was accepted last.
    Receive,
}

/// A frame whose text, all but its two addresses, is sealed. It is named for its octets.
#[derive(Clone, Copy)]
pub enum Frame {
    Octets64,
    Octets512,
    Octets1500,
}

impl FromStr for Test {
    ghost use Rattle.workbench_cases.specs.declared.ciphers.named.Test.{Test};

    type Err = anyhow::Error;

    ghost from_str_gives = { λ word r.
        MatchResult r (λ test. word ≡ name test) (λ _. (test : Test) → word ≢ name test) };

    /// Reads the name of a test. Any other word is an error.
    fn from_str(word: &str) -> anyhow::Result<Test> {
        Ok(match word {
            "aes128_block" => Test::Block,
            "aes256_block" => Test::LongKeyBlock,
            "cmac_150" => Test::Cmac,
            "gcm_64" => Test::Gcm(Frame::Octets64),
            "gcm_512" => Test::Gcm(Frame::Octets512),
            "gcm_1500" => Test::Gcm(Frame::Octets1500),
            "gcm256_1500" => Test::LongKeyGcm,
            "protect_1500" => Test::Protect,
            "receive_1500" => Test::Receive,
            _ => bail!("there is no test {word:?}"),
        })
    }
}
