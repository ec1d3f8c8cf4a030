//! Laws of the logs of workers.

ghost use Rattle.std.specs.Prelude.{◌≡◌, ℕ, ◌+◌, ◌≤◌, List};
ghost use Rattle.std.specs.List.{AllByRecursion};
ghost use Rattle.association_slots.specs.Learned.{Learned};
ghost use Rattle.association_slots.specs.Steps.{told};
ghost use Rattle.association_slots.specs.Views.{claimed, count};
ghost use Rattle.association_slots.specs.declared.view.ControlView.{ControlView};
ghost use Rattle.association_slots.specs.declared.view.SeatView.{SeatView};
ghost use Rattle.data_workers.specs.declared.entry.Entry.{Entry};
ghost use Rattle.data_workers.specs.declared.sender.Sender.{Sender};
ghost use Rattle.data_workers.specs.Logs.{IsLog};
ghost use Rattle.data_workers.specs.Told.{IsToldEntry, times_taken};

/// Once a worker's seat was told, each frame of its log is of an epoch that control pointed at
/// under its association number, protected under control's card of that epoch; each refusal for
/// want of a key was made while nothing was present; and each other one has a mark that was told.
pub fn law_a_told_log()
    ensures { (v w : SeatView) (sender : Sender) (log : List Entry) → IsLog v w sender log
        → (c : ControlView) → Learned (told c w)
        → AllByRecursion (IsToldEntry (told c w) sender) log }
{}

/// A seat claimed each number of each epoch as often as its worker's log took it, beside what the
/// seat had claimed before.
pub fn law_a_log_counts_claims()
    ensures { (v w : SeatView) (sender : Sender) (log : List Entry) → IsLog v w sender log
        → (epoch pn : ℕ) → count (claimed epoch pn) w.additions
        ≡ times_taken epoch pn log + count (claimed epoch pn) v.additions }
{}

/// Once a worker's seat was told, its log, what the seat had claimed before, and all that control
/// had been told have each number of each epoch at most once in all.
pub fn law_told_numbers_differ()
    ensures { (v w : SeatView) (sender : Sender) (log : List Entry) → IsLog v w sender log
        → (c : ControlView) → Learned (told c w) → (epoch pn : ℕ)
        → times_taken epoch pn log
        + (count (claimed epoch pn) v.additions + count (claimed epoch pn) c.told) ≤ 1 }
{}
