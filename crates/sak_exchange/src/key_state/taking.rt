//! An offered key is taken, or the first reason why not is told.

ghost use Rattle.std.specs.Prelude.{◌≡◌, ◌+◌, ◌<◌, ◌^◌, List, ℕ, false, IfOk, OnOk, OnErr};
ghost use Rattle.lan_base.specs.declared.address.Mi.{Mi};
ghost use Rattle.sak_exchange.specs.Histories.{Keying};
ghost use Rattle.sak_exchange.specs.Unwrapping.{given_sak};
ghost use Rattle.sak_exchange.specs.Outcomes.{taking};
ghost use Rattle.sak_exchange.specs.Standing.{StandsFor};
ghost use Rattle.sak_exchange.specs.inside.States.{judged_now};

use super::KeyState;
use crate::change::{Change, Changes, Why};
use crate::held_key::Key;
use crate::offer::Offer;
use std::alloc::AllocError;

impl KeyState {
    /// At an accepted announcement that gives a key: the key is installed, or the first reason why
    /// not is told.
    pub fn take(&mut self, offer: &Offer, kek: &aes_block::Key) -> Result<Changes, AllocError>
        requires few { self.old.epochs + 1 < 2 ^ 32 }
        ensures changes { (base : ℕ) (own : Mi) (h : List Keying)
            → StandsFor base own false self.old h →
            IfOk result (λ c. c ≡ (taking base h offer.now
            (given_sak kek.now offer.now.given.key)).changes) }
        ensures stands { (base : ℕ) (own : Mi) (h : List Keying)
            → StandsFor base own false self.old h →
            OnOk result (StandsFor base own false self.new
            (taking base h offer.now (given_sak kek.now offer.now.given.key)).past) }
        ensures unchanged { OnErr result (self.new ≡ self.old) }
    {
        match self.judge(offer, kek) {
            Ok(key) => self.install(key, None),
            Err(why) => Changes::of(
                self.alloc,
                Change::Untaken {
                    id: offer.id(),
                    why,
                },
            ),
        }
    }

    /// The key that an offer installs, or the first reason why it installs none.
    fn judge(&self, offer: &Offer, kek: &aes_block::Key) -> Result<Key, Why>
        requires { self.now.epochs + 1 < 2 ^ 32 }
        ensures { result ≡ judged_now self.now offer.now (given_sak kek.now offer.now.given.key) }
    {
        if !offer.listed {
            return Err(Why::NotListed);
        }
        if !offer.elected {
            return Err(Why::NotServer);
        }
        let id = offer.id();
        if let Some(kept) = self.number_of(&id.server) {
            if id.number <= kept {
                return Err(Why::Seen { kept });
            }
        }
        if !self.allows() {
            return Err(Why::Retiring);
        }
        if !offer.is_supported() {
            return Err(Why::Suite);
        }
        if !offer.leaves_none() {
            return Err(Why::Offset);
        }
        let sak = offer.sak(kek).ok_or(Why::Wrap)?;
        Ok(Key {
            id,
            an: offer.given.an,
            sak,
            conf: offer.encrypts(),
            epoch: self.epochs + 1,
        })
    }
}
