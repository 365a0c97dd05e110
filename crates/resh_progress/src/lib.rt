//! What a shard is told, and the record to which a link goes back.
#![tactic(auto)]

mod kept;
mod machine;
mod message;
mod progress;
mod step;
mod told;

pub use kept::{Counts, Kept};
pub use machine::{Machine, Phases, machine_laws};
pub use message::Message;
pub use progress::Progress;
pub use step::Step;
pub use told::Told;
