//! The feed of a donor for a recipient: its items, how far it is read, and what its items make of a slot.
#![tactic(auto)]

mod item;
mod laws;

pub use item::{After, Item, Reading};
pub use laws::feed_laws;
