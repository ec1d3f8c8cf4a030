//! Names of stations.

ghost use Rattle.std.specs.Prelude.{◌≡◌, ◌↔◌, IsSome, IfSome};
ghost use Rattle.std.specs.List.{list_all};
ghost use Rattle.std.specs.Char.{is_ascii_alphanumeric};
ghost use Rattle.lan_base.specs.Name.{IsName, is_name};

use std::fmt;
use std::marker::Model;

/// The most octets of a name.
const LONGEST: usize = 16;

/// A station's name: an ASCII letter and up to 15 further ASCII letters or digits. Contracts see
/// its octets.
#[derive(Clone, Copy, PartialEq, Eq)]
pub struct Name {
    octets: [u8; LONGEST],
    len: u8,
}

impl Model for Name {
    ghost use Rattle.std.specs.Prelude.{ℕ, List, take};

    ghost Value = { List ℕ };

    ghost use Rattle.lan_base.specs.Name.{IsPadded};
    ghost use Rattle.lan_base.specs.inside.NameFields.{fields_of, fields_of-take};

    ghost view = { λ n. take n.len n.octets };

    ghost invariant = { λ n. IsPadded n.octets n.len };

    ghost inverse = { fields_of };

    ghost inverse_ok = { fields_of-take };
}

impl Name {
    /// The name that a word spells, if it spells one.
    pub fn of(word: &[u8]) -> Option<Self>
        ensures named { IsSome result ↔ IsName word.now }
        ensures value { IfSome result (λ name. name ≡ word.now) }
    {
        if !is_name(word) {
            return None;
        }
        let mut octets = [0; LONGEST];
        octets[..word.len()].copy_from_slice(word);
        Some(Name {
            octets,
            len: word.len() as u8,
        })
    }

    /// The octets of the name, without what it is filled up with.
    pub fn octets(&self) -> &[u8]
        ensures value { result.now ≡ self.now }
        ensures name { IsName self.now }
    {
        &self.octets[..self.len as usize]
    }
}

impl fmt::Debug for Name {
    fn fmt<W: fmt::Write>(&self, f: &mut fmt::Formatter<W>) -> fmt::Result {
        for octet in self.octets() {
            f.write_char(char::from(*octet))?;
        }
        Ok(())
    }
}

/// Whether a word is an ASCII letter and up to 15 further ASCII letters or digits.
fn is_name(word: &[u8]) -> bool
    ensures { result ≡ is_name word.now }
{
    match word {
        [first, others @ ..] => {
            first.is_ascii_alphabetic() && are_alphanumeric(others) && others.len() < LONGEST
        }
        [] => false,
    }
}

/// Whether each of the octets is an ASCII letter or digit.
fn are_alphanumeric(octets: &[u8]) -> bool
    ensures { result ≡ list_all is_ascii_alphanumeric octets.now }
{
    octets.iter().all(|octet| octet.is_ascii_alphanumeric())
}
