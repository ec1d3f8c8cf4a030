//! What the lines of a trace choose and name, the supply of draws, which links are cut, and how a line
//! can end: for one group and for two.
#![tactic(auto)]

mod choices;
mod choosing;
mod halt;
mod links;
mod names;
mod putting;
mod refusals;
mod setup;
mod supply;

pub use choices::{Choices, Keyed, Rule};
pub use choosing::{choose, secret_of};
pub use halt::{Halt, Kind, halt_of};
pub use links::{Link, Links};
pub use names::{is_named, position, unknown};
pub use putting::put;
pub use refusals::{is_elsewhere, kind_of_fault, refusal};
pub use setup::{settings_of, supply_of};
pub use supply::Supply;
