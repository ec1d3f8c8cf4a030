//! A station with its receive slots.

ghost use Rattle.std.specs.Prelude.{◌≡◌, ◌≤◌, ◌+◌, ◌∷◌, [], List, ℕ, length, true, false, Err, IfOk, OnOk, OnErr, Option, option_map, option_to_list};
ghost use Rattle.std.specs.List.{find};
ghost use Rattle.std.specs.Option.{option_copied};
ghost use Rattle.lan_base.specs.AssociationNumbers.{same_an};
ghost use Rattle.lan_base.specs.declared.frame.UserFrame.{UserFrame};
ghost use Rattle.lan_base.specs.Ranges.{IsUserData};
ghost use Rattle.aes_block.specs.Secrets.{secret_octets};
ghost use Rattle.gcm_frames.specs.Protected.{protected};
ghost use Rattle.sak_exchange.specs.Held.{held as held_after, transmitting as transmitting_after};
ghost use Rattle.rx_slots.specs.Answers.{checked as checked_answer};
ghost use Rattle.rx_slots.specs.Histories.{Receiving, heard, standing_key};
ghost use Rattle.rx_slots.specs.Numbers.{answer};
ghost use Rattle.lan_core.specs.declared.fact.Fact.TheVariants.{Arrived};
ghost use Rattle.mka_station.specs.Standing.{born, reborn, drawn_mi};
ghost use Rattle.mka_station.specs.Drawing.{sak_of, draws_at, is_short};
ghost use Rattle.mka_station.specs.declared.tick_error.TickError.{TickError};
ghost use Rattle.lan_core.specs.declared.settings.Settings.{Settings};
ghost use Rattle.lan_core.specs.Run.{Run};
ghost use Rattle.lan_core.specs.Ledgers.{gather, next_frame};
ghost use Rattle.lan_core.specs.Lives.{Life, keys_in, receiving, seen_at, slot_change, turn_at_tick, heard_data, lived, lived_hearing, lived_ticking};
ghost use Rattle.lan_core.specs.Expected.{tick_facts, reached_facts, reaction_facts, restart_facts};
ghost use Rattle.lan_core.specs.Keys.{held_under};
ghost use Rattle.lan_core.specs.Order.{most_octets};
ghost use Rattle.lan_core.specs.Standing.{Sits};
ghost use Rattle.lan_core.specs.inside.Judge.{IsOf};
ghost use Rattle.lan_core.specs.inside.Seats.{Claims, IsFew, IsPast, installs_in};
ghost use Rattle.lan_core.specs.inside.Following.{count_installed, followed};
ghost use Rattle.mka_station.specs.Tick.{tick_turn};
ghost use Rattle.mka_station.specs.Hearing.{frame_turn, heard_turn};
ghost use Rattle.mka_station.specs.Restart.{ending};

use crate::claimed::Claimed;
use crate::fact::{Fact, Facts};
use crate::following::{follow, installs_after, lowest_under};
use crate::judge::Judge;
use crate::limits::judge_installs;
use crate::sender::Sender;
use crate::stop::{Stop, Which};
use crate::telling::{tell, told};
use gcm_frames::is_sec;
use lan_base::{AssociationNumber, Draws, Octets, Sci, TICKS_MAX, UserFrame, is_user_data};
use mka_station::{Config, DropReason, Reaction, Station, TickError, law_room, law_turns_count};
use mkpdu_codec::Announcement;
use rx_slots::{Checked, RxSlots};
use sak_exchange::{HeldKey, Key, Seen};
use std::alloc::{AllocError, Global};
use std::marker::Model;

/// A station in one of its lives, with its receive slots, which it keeps over all its lives.
#[derive(Drop)]
pub struct Seat {
    alloc: Global,
    station: Station,
    slots: RxSlots,
    /// The key under which the station last sent.
    sender: Option<Sender>,
    /// How many ticks the life has.
    ticks: u32,
    /// How many keys the station installed, over all its lives.
    installs: u32,
}

impl Model for Seat {
    ghost use Rattle.lan_core.specs.Standing.{Seat, IsSeat};

    ghost Value = { Seat };

    ghost view = { λ s. record {
      station = s.station;
      slots = s.slots;
      ticks = s.ticks;
      installs = s.installs;
    } };

    ghost invariant = { λ s. IsSeat (record {
      station = s.station;
      slots = s.slots;
      ticks = s.ticks;
      installs = s.installs;
    }) };
}

impl Seat {
    /// A station in its first life, whose member identifier is drawn.
    pub fn start(
        alloc: Global,
        config: Config,
        window: u32,
        draw: [u8; 16],
    ) -> Result<Seat, AllocError>
        ensures { IfOk result (Sits window (record { member = born config 0 draw; past = [] }) []) }
    {
        let sci = config.sci;
        let station = Station::start(alloc, config, 0, draw)?;
        Ok(Seat {
            alloc,
            station,
            slots: RxSlots::new(alloc, sci, window),
            sender: None,
            ticks: 0,
            installs: 0,
        })
    }

    /// A station with more ticks in its life than there may be, or more installs, stops its group before
    /// it counts on.
    pub fn judge_counts(&self) -> Result<(), Stop>
        ensures few { OnOk result (IsFew self.now) }
        ensures past { OnErr result (IsPast self.now) }
    {
        if self.ticks > TICKS_MAX {
            return Err(Stop::Limit(Which::Ticks));
        }
        judge_installs(self.installs)
    }

    /// A tick at the station, which stands at this place, where the next frame of the air has this
    /// packet number.
    pub fn tick<D: Draws>(
        &mut self,
        place: u8,
        number: u32,
        next: u64,
        draws: &mut D,
    ) -> Result<Facts, TickError>
        requires { IsFew self.old }
        ensures facts { (settings : Settings) (r : Run) (l : Life)
            → Sits settings.window l (receiving place r) self.old →
            number ≡ next_frame r → IfOk result (λ facts. facts
            ≡ tick_facts settings place r next (sak_of l.member.setup.suite (D.nth draws.old)) l) }
        ensures stands { (settings : Settings) (r : Run) (l : Life)
            → Sits settings.window l (receiving place r) self.old →
            number ≡ next_frame r → let sak = sak_of l.member.setup.suite (D.nth draws.old) in
            OnOk result (Sits settings.window (lived_ticking settings place r next sak l)
            (gather (slot_change place) (tick_facts settings place r next sak l)
            (receiving place r)) self.new) }
        ensures drawn { (settings : Settings) (r : Run) (l : Life)
            → Sits settings.window l (receiving place r) self.old →
            OnOk result ((k : ℕ) → D.nth draws.new k
            ≡ D.nth draws.old (k + draws_at l.member l.past (seen_at settings place r l next))) }
        ensures counted { IfOk result (λ facts. self.new.installs
            ≡ self.old.installs + installs_in facts) }
        ensures enough { (settings : Settings) (r : Run) (l : Life)
            → Sits settings.window l (receiving place r) self.old →
            OnOk result (is_short l.member l.past (seen_at settings place r l next)
            (D.nth draws.old) ≡ false) }
        ensures spent { (settings : Settings) (r : Run) (l : Life)
            → Sits settings.window l (receiving place r) self.old →
            result ≡ Err TickError.DrawsSpent →
            is_short l.member l.past (seen_at settings place r l next) (D.nth draws.old) ≡ true }
    {
        let reaction = self.react(next, draws)?;
        let ticked = Fact::Ticked {
            station: place,
            at: self.ticks,
            next,
        };
        let facts = told(self.alloc, ticked, place, number, reaction)?;
        Ok(facts)
    }

    /// A tick at the station, which transmits at this packet number next.
    fn react<D: Draws>(&mut self, next: u64, draws: &mut D) -> Result<Reaction, TickError>
        requires { IsFew self.old }
        ensures reaction { (settings : Settings) (place : ℕ) (r : Run) (l : Life) →
            Sits settings.window l (receiving place r) self.old →
            let sak = sak_of l.member.setup.suite (D.nth draws.old) in
            IfOk result (λ x. x ≡ (turn_at_tick settings place r l next sak).reaction) }
        ensures stands { (settings : Settings) (place : ℕ) (r : Run) (l : Life) →
            Sits settings.window l (receiving place r) self.old →
            let sak = sak_of l.member.setup.suite (D.nth draws.old) in
            IfOk result (λ x. Sits settings.window (lived_ticking settings place r next sak l)
            (followed x.changes (receiving place r)) self.new) }
        ensures counted { IfOk result (λ x. self.new.installs
            ≡ self.old.installs + count_installed x.changes) }
        ensures drawn { (settings : Settings) (place : ℕ) (r : Run) (l : Life) →
            Sits settings.window l (receiving place r) self.old
            → OnOk result ((k : ℕ) → D.nth draws.new k
            ≡ D.nth draws.old (k + draws_at l.member l.past (seen_at settings place r l next))) }
        ensures enough { (settings : Settings) (place : ℕ) (r : Run) (l : Life) →
            Sits settings.window l (receiving place r) self.old →
            OnOk result (is_short l.member l.past (seen_at settings place r l next)
            (D.nth draws.old) ≡ false) }
        ensures spent { (settings : Settings) (place : ℕ) (r : Run) (l : Life) →
            Sits settings.window l (receiving place r) self.old
            → result ≡ Err TickError.DrawsSpent →
            is_short l.member l.past (seen_at settings place r l next) (D.nth draws.old) ≡ true }
    {
        let seen = self.seen(next);
        self.advance(&seen, draws)
    }

    /// What a tick is shown of packet numbers.
    fn seen(&self, next: u64) -> Seen
        ensures { (settings : Settings) (place : ℕ) (r : Run) (l : Life)
            → Sits settings.window l (receiving place r) self.now →
            result ≡ seen_at settings place r l next }
    {
        Seen {
            next,
            latest: lowest_under(&self.slots, self.station.latest()),
            old: lowest_under(&self.slots, self.station.old()),
        }
    }

    /// A tick at the station, whose receive slots follow.
    fn advance<D: Draws>(&mut self, seen: &Seen, draws: &mut D) -> Result<Reaction, TickError>
        requires { IsFew self.old }
        ensures reaction { (window : ℕ) (l : Life) (h : List Receiving) → Sits window l h self.old →
            IfOk result (λ r. r ≡ (tick_turn l.member seen.now
            (sak_of l.member.setup.suite (D.nth draws.old)) l.past).reaction) }
        ensures stands { (window : ℕ) (l : Life) (h : List Receiving) → Sits window l h self.old →
            IfOk result (λ r. Sits window
            (lived l (tick_turn l.member seen.now (sak_of l.member.setup.suite
            (D.nth draws.old)) l.past))
            (followed r.changes h) self.new) }
        ensures counted { IfOk result (λ r. self.new.installs
            ≡ self.old.installs + count_installed r.changes) }
        ensures drawn { (window : ℕ) (l : Life) (h : List Receiving) → Sits window l h self.old →
            OnOk result ((k : ℕ) → D.nth draws.new k
            ≡ D.nth draws.old (k + draws_at l.member l.past seen.now)) }
        ensures enough { (window : ℕ) (l : Life) (h : List Receiving) → Sits window l h self.old →
            OnOk result (is_short l.member l.past seen.now (D.nth draws.old) ≡ false) }
        ensures spent { (window : ℕ) (l : Life) (h : List Receiving) → Sits window l h self.old →
            result ≡ Err TickError.DrawsSpent → is_short l.member l.past seen.now
            (D.nth draws.old) ≡ true }
    {
        law_room();
        law_turns_count();
        let reaction = self.station.tick(seen, draws)?;
        let changes = reaction.changes.as_slice();
        self.ticks += 1;
        self.installs = installs_after(self.installs, changes);
        follow(&mut self.slots, changes);
        Ok(reaction)
    }

    /// The frame of this number, or foreign octets under the number 0, reach the station, which
    /// stands at this place. The judge is that of its group.
    pub fn reach(
        &mut self,
        place: u8,
        number: u32,
        octets: &[u8],
        judge: &mut Judge,
    ) -> Result<Facts, AllocError>
        requires light { length octets.now ≤ most_octets }
        requires few { IsFew self.old }
        ensures facts { (settings : Settings) (r : Run) (l : Life)
            → Sits settings.window l (receiving place r) self.old →
            IsOf judge.old.settings l.member.setup →
            IfOk result (λ facts. facts ≡ reached_facts settings place r number octets.now l) }
        ensures stands { (settings : Settings) (r : Run) (l : Life)
            → Sits settings.window l (receiving place r) self.old →
            IsOf judge.old.settings l.member.setup →
            OnOk result (Sits settings.window (lived_hearing l octets.now)
            (gather (slot_change place) (reached_facts settings place r number octets.now l)
            (heard_data octets.now (receiving place r))) self.new) }
        ensures counted { IfOk result (λ facts. self.new.installs
            ≡ self.old.installs + installs_in facts) }
        ensures kept { judge.new.settings ≡ judge.old.settings }
    {
        if is_sec(octets) {
            self.receive(place, number, octets)
        } else {
            self.hear_frame(place, number, octets, judge)
        }
    }

    /// A protected frame reaches the station.
    fn receive(&mut self, place: u8, number: u32, octets: &[u8]) -> Result<Facts, AllocError>
        requires { length octets.now ≤ most_octets }
        ensures facts { (window : ℕ) (l : Life) (h : List Receiving) → Sits window l h self.old →
            IfOk result (λ facts. facts ≡ Arrived number place
            (answer l.member.setup.sci window h octets.now) ∷ []) }
        ensures stands { (window : ℕ) (l : Life) (h : List Receiving) → Sits window l h self.old →
            OnOk result (Sits window l (heard octets.now ∷ h) self.new) }
        ensures counted { IfOk result (λ facts. self.new.installs
            ≡ self.old.installs + installs_in facts) }
    {
        let checked = self.slots.check(octets)?;
        self.admit(place, number, checked)
    }

    /// A protected frame of this number reaches the station, which stands at this place, and was
    /// answered as far as its tag under the keys that stand now.
    pub fn admit(&mut self, place: u8, number: u32, checked: Checked) -> Result<Facts, AllocError>
        ensures facts { (window : ℕ) (l : Life) (h : List Receiving) (octets : List ℕ)
            → Sits window l h self.old
            → checked ≡ checked_answer l.member.setup.sci (standing_key h) octets
            → IfOk result (λ facts. facts ≡ Arrived number place
            (answer l.member.setup.sci window h octets) ∷ []) }
        ensures stands { (window : ℕ) (l : Life) (h : List Receiving) (octets : List ℕ)
            → Sits window l h self.old
            → checked ≡ checked_answer l.member.setup.sci (standing_key h) octets
            → OnOk result (Sits window l (heard octets ∷ h) self.new) }
        ensures counted { IfOk result (λ facts. self.new.installs
            ≡ self.old.installs + installs_in facts) }
    {
        let arrival = self.slots.admit(checked)?;
        let arrived = Fact::Arrived {
            frame: number,
            station: place,
            arrival,
        };
        Facts::one(self.alloc, arrived)
    }

    /// The receive slots.
    pub fn slots(&self) -> &RxSlots
        ensures { result.now ≡ self.now.slots }
    {
        &self.slots
    }

    /// A frame that is no protected one reaches the station, and is judged by the judge of its
    /// group.
    fn hear_frame(
        &mut self,
        place: u8,
        number: u32,
        octets: &[u8],
        judge: &mut Judge,
    ) -> Result<Facts, AllocError>
        requires { IsFew self.old }
        ensures facts { (window : ℕ) (l : Life) (h : List Receiving) → Sits window l h self.old →
            IsOf judge.old.settings l.member.setup →
            IfOk result (λ facts. facts ≡ reaction_facts place number 0
            (frame_turn l.member octets.now l.past).reaction) }
        ensures stands { (window : ℕ) (l : Life) (h : List Receiving) → Sits window l h self.old →
            IsOf judge.old.settings l.member.setup →
            OnOk result (Sits window (lived l (frame_turn l.member octets.now l.past))
            (gather (slot_change place) (reaction_facts place number 0
            (frame_turn l.member octets.now l.past).reaction) h)
            self.new) }
        ensures counted { IfOk result (λ facts. self.new.installs
            ≡ self.old.installs + installs_in facts) }
        ensures kept { judge.new.settings ≡ judge.old.settings }
    {
        judge.turn_to(octets)?;
        let reaction = self.hear(judge.judgement())?;
        let mut facts = Facts::new(self.alloc);
        tell(&mut facts, place, number, 0, reaction)?;
        Ok(facts)
    }

    /// A frame is heard that was judged, and the receive slots follow.
    fn hear(&mut self, judgement: &Result<Announcement, DropReason>) -> Result<Reaction, AllocError>
        requires { IsFew self.old }
        ensures reaction { (window : ℕ) (l : Life) (h : List Receiving) → Sits window l h self.old →
            IfOk result (λ r. r ≡ (heard_turn l.member judgement.now l.past).reaction) }
        ensures stands { (window : ℕ) (l : Life) (h : List Receiving) → Sits window l h self.old →
            IfOk result (λ r. Sits window (lived l (heard_turn l.member judgement.now l.past))
            (followed r.changes h) self.new) }
        ensures counted { IfOk result (λ r. self.new.installs
            ≡ self.old.installs + count_installed r.changes) }
    {
        law_room();
        law_turns_count();
        let reaction = self.station.hear_judged(judgement)?;
        let changes = reaction.changes.as_slice();
        self.installs = installs_after(self.installs, changes);
        follow(&mut self.slots, changes);
        Ok(reaction)
    }

    /// The station, which stands at this place, starts again.
    pub fn restart(&mut self, place: u8, draw: [u8; 16]) -> Result<Facts, AllocError>
        ensures facts { (window : ℕ) (l : Life) (h : List Receiving) → Sits window l h self.old →
            IfOk result (λ facts. facts ≡ restart_facts place (drawn_mi draw) l) }
        ensures stands { (window : ℕ) (l : Life) (h : List Receiving) → Sits window l h self.old →
            OnOk result (Sits window (record { member = reborn l.member l.past draw; past = [] })
            (gather (slot_change place) (restart_facts place (drawn_mi draw) l) h) self.new) }
        ensures counted { IfOk result (λ facts. self.new.installs
            ≡ self.old.installs + installs_in facts) }
    {
        let reaction = self.begin_again(draw)?;
        let life = Fact::Life {
            station: place,
            mi: *self.station.mi(),
        };
        let facts = told(self.alloc, life, place, 0, reaction)?;
        Ok(facts)
    }

    /// The station starts again, and the receive slots follow the end of its life.
    fn begin_again(&mut self, draw: [u8; 16]) -> Result<Reaction, AllocError>
        ensures reaction { (window : ℕ) (l : Life) (h : List Receiving) → Sits window l h self.old →
            IfOk result (λ r. r ≡ ending l.member l.past) }
        ensures stands { (window : ℕ) (l : Life) (h : List Receiving) → Sits window l h self.old →
            IfOk result (λ r. Sits window (record {
              member = reborn l.member l.past draw;
              past = [];
            }) (followed r.changes h) self.new) }
        ensures counted { OnOk result (self.new.installs ≡ self.old.installs) }
        ensures none { IfOk result (λ r. count_installed r.changes ≡ 0) }
    {
        let reaction = self.station.restart(draw)?;
        self.ticks = 0;
        follow(&mut self.slots, reaction.changes.as_slice());
        Ok(reaction)
    }

    /// The SCI of the station.
    pub fn sci(&self) -> Sci
        ensures { result ≡ self.now.station.setup.sci }
    {
        self.station.sci()
    }

    /// The key under which frames are sent.
    pub fn transmitting(&self) -> Option<HeldKey>
        ensures { (window : ℕ) (l : Life) (h : List Receiving) → Sits window l h self.now →
            result ≡ option_map (held_after (keys_in l)) (transmitting_after (keys_in l)) }
    {
        self.station.transmitting()
    }

    /// The key that is held under an association number.
    pub fn held(&self, an: AssociationNumber) -> Option<HeldKey>
        ensures { (window : ℕ) (l : Life) (h : List Receiving) → Sits window l h self.now →
            result ≡ held_under (keys_in l) an }
    {
        let latest = with_number(self.station.latest(), an);
        latest.or(with_number(self.station.old(), an))
    }

    /// How many keys the station installed, over all its lives.
    pub fn installs(&self) -> u32
        ensures { result ≡ self.now.installs }
    {
        self.installs
    }

    /// What a claim of a packet number comes to at the station, with its user frame. The key that
    /// transmits is prepared for the first frame that is sent under it, and kept.
    pub fn claim(&mut self, pn: u32, user: Option<&UserFrame>) -> Result<Claimed, AllocError>
        ensures claims { (window : ℕ) (l : Life) (h : List Receiving) → Sits window l h self.old →
            IfOk result (Claims l pn (option_copied user.entry)) }
        ensures same { self.new ≡ self.old }
    {
        let key = self.station.transmitting();
        let octets = self.sealed(key, pn, user)?;
        Ok(Claimed { key, octets })
    }

    /// The frame of a user, protected under a key of the station, where there are a key and a
    /// packet number.
    fn sealed(
        &mut self,
        held: Option<HeldKey>,
        pn: u32,
        user: Option<&UserFrame>,
    ) -> Result<Option<Octets>, AllocError>
        ensures none { pn ≡ 0 → IfOk result (λ octets. octets ≡ None) }
        ensures octets { (given : UserFrame) → 1 ≤ pn → option_copied user.entry ≡ Some given
            → IsUserData given.body
            → IfOk result (λ octets. octets ≡ option_map (λ h. protected
            (secret_octets h.key.sak) self.old.station.setup.sci h.key.an pn h.key.conf given)
            held) }
        ensures same { self.new ≡ self.old }
    {
        let Some(held) = held else {
            return Ok(None);
        };
        match user {
            Some(user) if pn > 0 && is_user_data(user.body.as_slice()) => {
                Ok(Some(self.protected(&held.key, pn, user)?))
            }
            _ => Ok(None),
        }
    }

    /// The frame of a user, protected under a key of the station.
    fn protected(&mut self, key: &Key, pn: u32, user: &UserFrame) -> Result<Octets, AllocError>
        requires pn { 1 ≤ pn }
        requires user { IsUserData user.now.body }
        ensures octets { IfOk result (λ octets. octets ≡ protected (secret_octets key.now.sak)
            self.old.station.setup.sci key.now.an pn key.now.conf user.now) }
        ensures same { self.new ≡ self.old }
    {
        let sci = self.station.sci();
        match &self.sender {
            Some(sender) if sender.is_of(&key.sak) => sender.frame(self.alloc, sci, key, pn, user),
            _ => self.first_protected(key, pn, user),
        }
    }

    /// The frame of a user, protected under a key that has to be prepared first. A prepared key is
    /// large: this keeps the room for it out of those who call this seldom.
    #[inline(never)]
    fn first_protected(
        &mut self,
        key: &Key,
        pn: u32,
        user: &UserFrame,
    ) -> Result<Octets, AllocError>
        requires pn { 1 ≤ pn }
        requires user { IsUserData user.now.body }
        ensures octets { IfOk result (λ octets. octets ≡ protected (secret_octets key.now.sak)
            self.old.station.setup.sci key.now.an pn key.now.conf user.now) }
        ensures same { self.new ≡ self.old }
    {
        let sender = Sender::of(&key.sak);
        let octets = sender.frame(self.alloc, self.station.sci(), key, pn, user);
        self.sender = Some(sender);
        octets
    }
}

/// A held key, if it has this association number.
fn with_number(held: Option<HeldKey>, an: AssociationNumber) -> Option<HeldKey>
    ensures { result ≡ find (λ h. same_an h.key.an an) (option_to_list held) }
{
    match held {
        Some(held) if held.key.an == an => Some(held),
        _ => None,
    }
}
