//! A client asks its next command of the shards: it waits, hears of the new map, is answered, or is refused.
#![tactic(auto)]

mod aborting;
mod answers;
mod asked;
mod client;
mod halves;
mod holding;
mod moving;
mod reading;
mod refused;
mod replying;
mod targets;

pub use asked::Asked;
pub use client::{ask, may_ask};
