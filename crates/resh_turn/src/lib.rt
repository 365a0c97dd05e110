//! Turns on one shared value: who holds the turn changes the value, and each change is in its journal.
#![tactic(auto)]

mod cell;
mod pass;
mod rule;
mod story;

pub use cell::{Hold, TurnCell};
pub use pass::{Pass, Passes};
pub use story::{Journal, Made, Story};
