//! Laws of the logs of workers in a race.

ghost use Rattle.std.specs.Prelude.{◌≡◌, ◌≤◌, ◌<◌, ◌+◌, ◌^◌, ◌++◌, ◌==◌, ℕ, if◌then◌else◌, List};
ghost use Rattle.std.specs.Prelude.{map};
ghost use Rattle.std.specs.List.{AllByRecursion};
ghost use Rattle.lan_base.specs.declared.association_number.AssociationNumber.{AssociationNumber};
ghost use Rattle.lan_base.specs.declared.frame.UserFrame.{UserFrame};
ghost use Rattle.association_slots.specs.declared.card.Card.{Card};
ghost use Rattle.association_slots.specs.declared.view.ControlView.{ControlView};
ghost use Rattle.association_slots.specs.declared.view.Current.{Current};
ghost use Rattle.association_slots.specs.declared.view.SeatView.{SeatView};
ghost use Rattle.association_slots.specs.Learned.{Learned};
ghost use Rattle.association_slots.specs.Steps.{told};
ghost use Rattle.data_workers.specs.declared.entry.Entry.{Entry};
ghost use Rattle.data_workers.specs.declared.sender.Sender.{Sender};
ghost use Rattle.data_workers.specs.Logs.{IsLog};
ghost use Rattle.data_workers.specs.Told.{times_taken};
ghost use Rattle.lan_core.specs.declared.event.Event.{Event};
ghost use Rattle.lan_core.specs.declared.settings.Settings.{Settings};
ghost use Rattle.lan_core.specs.Run.{Happening, Run};
ghost use Rattle.lan_core.specs.Claims.{user_at};
ghost use Rattle.lan_core.specs.Order.{Exists, IsSendable};
ghost use Rattle.lan_core.specs.Legal.{IsStepped};
ghost use Rattle.lan_core.specs.Parts.{followed_by, without_claims, AreProtected};
ghost use Rattle.worker_races.specs.merge.Places.{Move};
ghost use Rattle.worker_races.specs.merge.Merged.{AllPairs, Differ, InLog, IsFit, entries_of};
ghost use Rattle.worker_races.specs.merge.Raced.{IsAttempt, before_of};
ghost use Rattle.worker_races.specs.merge.Steps.{attempt_of, counted_from, logs_of};
ghost use Rattle.worker_races.specs.merge.Weaving.{IsWoven};
ghost use Rattle.worker_races.specs.merge.Taking.{frames_of};
ghost use Rattle.worker_races.specs.merge.Sealing.{AreCards, AreSealed};
ghost use Rattle.worker_races.specs.merge.Words.{told_in};
ghost use Rattle.worker_races.specs.merge.Worked.{AreAns, BeganAfter, NoneExhausted, times_in};
ghost use Rattle.worker_races.specs.merge.Worked.{times_in_all};

/// The log of a worker fits a race, once its seat was told: by what the seat did since the worker
/// was made, and by what control knows.
pub fn law_logs_of_workers_fit_a_race()
    ensures in_log { (u : ℕ) (v w : SeatView) (sender : Sender) (log : List Entry)
        → IsLog v w sender log → NoneExhausted log → AllPairs InLog (map (attempt_of u) log) }
    ensures attempts { (users : List UserFrame) (base : ℕ) (ans : ℕ → ℕ → AssociationNumber)
        (r : Run) (u : ℕ) (v w : SeatView) (sender : Sender) (log : List Entry) (c : ControlView)
        → IsLog v w sender log → Learned (told c w)
        → Exists sender.station r → sender.station < 2 ^ 8 → base + u + 1 < 2 ^ 32
        → IsSendable (user_at users (base + u + 1)) → AreAns (ans sender.station) c.points
        → AllByRecursion (IsAttempt users base ans r) (map (attempt_of u) log) }
    ensures fits { (settings : Settings) (ans : ℕ → AssociationNumber) (pointed : ℕ → ℕ) (r : Run)
        (moves : List Move) (old : List Current) (u : ℕ) (v w : SeatView) (sender : Sender)
        (log : List Entry) (c : ControlView)
        → IsLog v w sender log → NoneExhausted log → Learned (told c w)
        → BeganAfter settings ans sender.station (pointed sender.station) r old v.start
        → c.points ≡ told_in ans sender.station (pointed sender.station) moves ++ old
        → AreAns ans c.points
        → AllByRecursion (IsFit (before_of settings pointed r) moves) (map (attempt_of u) log) }
    // Over all logs: where no number of an epoch was taken twice at a station.
    ensures differ { (logs : List (List Entry))
        → ((s epoch pn : ℕ) → times_in_all s epoch pn logs ≤ 1)
        → AllPairs Differ (entries_of (logs_of 0 logs)) }
    ensures times { (v w : SeatView) (sender : Sender) (log : List Entry) (s epoch pn : ℕ)
        → IsLog v w sender log → times_in s epoch pn log
        ≡ (if sender.station == s then times_taken epoch pn log else 0) }
{}

/// The frames that the events of a woven part take from its logs are those of its claims, each for
/// its claim's user, protected under the key that its station installed with the claim's epoch.
pub fn law_frames_of_a_woven_part_are_protected()
    ensures { (settings : Settings) (users : List UserFrame) (base : ℕ) (cards : ℕ → ℕ → Card)
        (r : Run) (part steps : List Happening) (events : List Event) (logs : List (List Entry))
        → map (λ h. h.event) part ≡ map (counted_from base) events
        → IsWoven base part steps (logs_of 0 logs)
        → IsStepped settings users (followed_by part r)
        → AreSealed users cards r (base + 1) logs
        → AreCards settings cards (followed_by (without_claims part) r)
        → AreProtected settings users (frames_of events logs) part r }
{}
