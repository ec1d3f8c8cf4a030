//! What an event shows at its station.

ghost use Rattle.std.specs.Prelude.{◌≡◌};
ghost use Rattle.std.specs.Option.{option_copied};
ghost use Rattle.lan_core.specs.Lives.{drawn_sak};
ghost use Rattle.lan_core.specs.inside.Shown.{sent_in};

use crate::fact::{Fact, Facts};
use aes_block::Secret;
use lan_base::Octets;

/// What an event shows at its station: its facts, and how many keys the station then installed, over
/// all its lives.
#[derive(Drop)]
pub struct EventFacts {
    pub facts: Facts,
    pub installs: u32,
}

impl EventFacts {
    /// The frame that was put on the air, if one was.
    pub fn sent(&self) -> Option<&Octets>
        ensures { option_copied result ≡ sent_in self.now.facts }
    {
        let facts = self.facts.as_slice();
        for fact in facts {
            if let Fact::Framed { octets, .. } = fact {
                return Some(octets);
            }
        }
        None
    }

    /// The key that was installed, if one was.
    pub fn installed(&self) -> Option<Secret>
        ensures { result ≡ drawn_sak self.now.facts }
    {
        let facts = self.facts.as_slice();
        for fact in facts {
            if let Fact::Installed { sak, .. } = fact {
                return Some(*sak);
            }
        }
        None
    }
}
