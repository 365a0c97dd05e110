//! A cluster on one thread: its steps, each with all that follows it at once, and the sweep.
#![tactic(auto)]

mod following;
mod holding;
mod lists;
mod lucks;
mod making;
mod meeting;
mod opening;
mod planning;
mod rows;
mod running;
mod stepping;
mod sweeping;
mod turning;

pub use lucks::Lucks;
pub use planning::planned;
pub use running::Core;
