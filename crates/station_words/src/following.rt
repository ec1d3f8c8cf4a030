//! The words of a station follow a fact.

ghost use Rattle.std.specs.Prelude.{◌≡◌, List, Some};
ghost use Rattle.lan_base.specs.declared.frame.UserFrame.{UserFrame};
ghost use Rattle.lan_core.specs.declared.settings.Settings.{Settings};
ghost use Rattle.lan_core.specs.Run.{Run};
ghost use Rattle.lan_core.specs.Standing.{StandsFor};
ghost use Rattle.group_safety.specs.Transmitting.{Carried, moved};
ghost use Rattle.group_safety.specs.Accounts.{Account};
ghost use Rattle.station_words.specs.Telling.{KeepUp, Tells, CatchUp, of_seats};
ghost use Rattle.station_words.specs.inside.Cards.{GivesCard, HasCard, card_held};

use crate::control::TransmitControl;
use association_slots::{Card, SlotTable};
use lan_core::{Fact, Lan};
use packet_claims::Gate;

/// The words of a station follow one of its facts. An install comes with the card of its key.
pub(crate) fn moved<G: Gate>(
    control: &mut TransmitControl,
    table: &SlotTable,
    fact: &Fact,
    card: Option<Card>,
    gate: &G,
)
    requires here { control.old.table ≡ table.now }
    ensures same { control.new.table ≡ control.old.table }
    ensures tells { (a : Account) (k : Carried) → Tells a control.old.view
        → moved fact.now a.carried ≡ Some k → HasCard fact.now card
        → Tells (record a { carried = k }) control.new.view }
    ensures keeps_up { (a : Account) (k : Carried) → KeepUp a control.old.view
        → moved fact.now a.carried ≡ Some k → HasCard fact.now card
        → KeepUp (record a { carried = k }) control.new.view }
    ensures catches_up { (a : Account) (k : Carried) → CatchUp a control.old.view
        → moved fact.now a.carried ≡ Some k → HasCard fact.now card
        → CatchUp (record a { carried = k }) control.new.view }
    ensures seats { of_seats control.new.view ≡ of_seats control.old.view }
    ensures cards { (a : Account) (k : Carried) → KeepUp a control.old.view
        → moved fact.now a.carried ≡ Some k → HasCard fact.now card
        → GivesCard fact.now card a.carried.installs control.old.view control.new.view }
{
    match fact {
        Fact::Installed { .. } => {
            if let Some(card) = card {
                control.install(table, &card);
            }
        }
        Fact::Began {
            station,
            an,
            epoch,
            ..
        } => control.begin(table, *station, *an, *epoch, gate),
        Fact::Dropped { station, an, .. } => control.end(table, *station, *an, gate),
        _ => {}
    }
}

/// The card of the key that a fact installs: of the one that is held under its association number.
pub(crate) fn card_of(lan: &Lan, fact: &Fact) -> Option<Card>
    ensures { (settings : Settings) (users : List UserFrame) (r : Run)
        → StandsFor settings users lan.now r → result ≡ card_held settings r fact.now }
{
    match fact {
        Fact::Installed { station, an, .. } => match lan.held(*station, *an) {
            Some(held) => Some(Card {
                sak: held.key.sak,
                conf: held.key.conf,
            }),
            None => None,
        },
        _ => None,
    }
}
