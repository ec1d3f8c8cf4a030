//! What live members say of keys.

ghost use Rattle.std.specs.Prelude.{◌≡◌};
ghost use Rattle.sak_exchange.specs.Reports.{names, reports_latest, reports, reaches, reaches_as, transmits};

use crate::due::Rekey;
use lan_base::{KeyId, Mi};
use mkpdu_codec::{KeyUse, Uses};

/// What a live member says of its keys, if anything.
#[derive(Clone, Copy)]
pub struct Report {
    pub mi: Mi,
    pub uses: Option<Uses>,
}

impl Report {
    /// Whether it says that the member receives under the key as its latest one.
    pub(crate) fn reports_latest(&self, id: &KeyId) -> bool
        ensures { result ≡ reports_latest id.now self.now.uses }
    {
        match &self.uses {
            Some(uses) => names(&uses.latest, id) && uses.latest.rx,
            None => false,
        }
    }

    /// Whether it says that the member receives under the key, as its latest one or its old one.
    pub(crate) fn reports(&self, id: &KeyId) -> bool
        ensures { result ≡ reports id.now self.now.uses }
    {
        match &self.uses {
            Some(uses) => {
                (names(&uses.latest, id) && uses.latest.rx) || (names(&uses.old, id) && uses.old.rx)
            }
            None => false,
        }
    }

    /// Whether it says, of the key as its latest one, and as its old one where that counts, a lowest
    /// acceptable packet number that isn't below the limit.
    pub(crate) fn reaches(&self, limit: Rekey, id: &KeyId) -> bool
        ensures { result ≡ reaches limit id.now self.now.uses }
    {
        match &self.uses {
            Some(uses) => {
                reaches_as(&uses.latest, limit.from, id)
                    || (limit.as_old && reaches_as(&uses.old, limit.from, id))
            }
            None => false,
        }
    }
}

/// Whether a use names the key.
pub(crate) fn names(used: &KeyUse, id: &KeyId) -> bool
    ensures { result ≡ names id.now used.now }
{
    used.server == id.server && used.number == id.number
}

/// Whether the uses say that their announcer transmits under the key, as its latest one or its old
/// one.
pub(crate) fn transmits(uses: &Uses, id: &KeyId) -> bool
    ensures { result ≡ transmits id.now uses.now }
{
    (names(&uses.latest, id) && uses.latest.tx) || (names(&uses.old, id) && uses.old.tx)
}

/// Whether a use names the key, with a lowest acceptable packet number that isn't below the limit.
fn reaches_as(key_use: &KeyUse, limit: u32, id: &KeyId) -> bool
    ensures { result ≡ reaches_as limit id.now key_use.now }
{
    names(key_use, id) && limit <= key_use.lowest
}
