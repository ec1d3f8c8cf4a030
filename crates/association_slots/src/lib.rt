//! The transmit associations of a station in words that any number of threads step on: one slot
//! word for each AN, a current word, and a card of each epoch's key. Packet numbers are taken from
//! a slot by one atomic addition, while one thread, which has the control, raises, points at and
//! shuts slots.
#![tactic(auto)]

mod card;
mod control;
mod laws;
mod rule;
mod table;
mod view;
mod words;
mod worker_seat;

pub use card::Card;
pub use control::{Cards, Control};
pub use laws::{
    law_additions, law_before_an_addition, law_cards, law_claims_are_numbers, law_claims_differ,
    law_claims_rise, law_counted_next, law_earlier_cards_stay, law_few_numbers_are_lost, law_given,
    law_gone, law_loaded, law_loaded_was_pointed_at, law_lost_additions, law_marks_stay,
    law_names_an_open_slot, law_next_is_low, law_not_gone, law_notes, law_numbers_differ, law_over,
    law_raised_epochs_rise, law_start, law_sums, law_told, law_words,
};
pub use rule::SlotRule;
pub use table::SlotTable;
pub use view::{
    Added, Addition, ControlView, Current, Mark, NextSeen, SeatView, SlotView, Start, View,
};
pub use worker_seat::WorkerSeat;
