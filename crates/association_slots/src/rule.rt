//! The rule of a table, and what each step tells the one that makes it.
use crate::view::View;
use atomic_table::{Join, Play, Seat, Split, TableRule};

/// The rule of the slot words. A table is told the first number and how many cards there is room
/// for.
pub struct SlotRule;

impl TableRule<u64, View, (u64, u64)> for SlotRule {
    ghost use Rattle.association_slots.specs.Rule.{Slotted};
    ghost use Rattle.association_slots.specs.Steps.{at_first};
    ghost use Rattle.association_slots.specs.declared.view.View.TheVariants.{Control};

    ghost holds = { λ _ s. Slotted s };

    ghost first = { λ key. Control (at_first key.0 key.1) };
}

/// A view of the table, with no bytes.
pub(crate) type Place = Seat<u64, View>;

/// A seat loads the current word.
pub(crate) struct Load;

impl Play<u64, View> for Load {
    ghost use Rattle.association_slots.specs.inside.Plays.{Loads};

    ghost then = { Loads };
}

/// A seat adds one to a slot.
pub(crate) struct Plus;

impl Play<u64, View> for Plus {
    ghost use Rattle.association_slots.specs.inside.Plays.{Adds};

    ghost then = { Adds };
}

/// A seat loads a card word.
pub(crate) struct Read;

impl Play<u64, View> for Read {
    ghost use Rattle.association_slots.specs.inside.Plays.{Reads};

    ghost then = { Reads };
}

/// Control swaps a slot to open.
pub(crate) struct Raise;

impl Play<u64, View> for Raise {
    ghost use Rattle.association_slots.specs.inside.Plays.{Raises};

    ghost then = { Raises };
}

/// Control sets the shut bit of a slot.
pub(crate) struct Shut;

impl Play<u64, View> for Shut {
    ghost use Rattle.association_slots.specs.inside.Plays.{Shuts};

    ghost then = { Shuts };
}

/// Control stores the current word.
pub(crate) struct PointAt;

impl Play<u64, View> for PointAt {
    ghost use Rattle.association_slots.specs.inside.Plays.{Points};

    ghost then = { Points };
}

/// Control looks at an open slot.
pub(crate) struct Look;

impl Play<u64, View> for Look {
    ghost use Rattle.association_slots.specs.inside.Plays.{Looks};

    ghost then = { Looks };
}

/// Control stores a card word.
pub(crate) struct Write;

impl Play<u64, View> for Write {
    ghost use Rattle.association_slots.specs.inside.Plays.{Writes};

    ghost then = { Writes };
}

/// Control learns what the rule says of its own view.
pub(crate) struct Learn;

impl Play<u64, View> for Learn {
    ghost use Rattle.association_slots.specs.inside.Plays.{Learns};

    ghost then = { Learns };
}

/// A seat goes out.
pub(crate) struct GoOut;

impl Split<View> for GoOut {
    ghost use Rattle.association_slots.specs.Views.{control_of};
    ghost use Rattle.association_slots.specs.Steps.{seated, new_seat};
    ghost use Rattle.association_slots.specs.declared.view.View.TheVariants.{Control, Seat};

    ghost left = { λ v. Control (seated (control_of v)) };

    ghost right = { λ v. Seat (new_seat (control_of v)) };
}

/// A seat comes back.
pub(crate) struct ComeBack;

impl Join<View> for ComeBack {
    ghost use Rattle.association_slots.specs.Views.{control_of, seat_of};
    ghost use Rattle.association_slots.specs.Steps.{told};
    ghost use Rattle.association_slots.specs.declared.view.View.TheVariants.{Control, Spent};

    ghost both = { λ v w. Control (told (control_of v) (seat_of w)) };

    ghost spent = { Spent };
}
