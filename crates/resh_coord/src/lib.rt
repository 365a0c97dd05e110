//! The coordinator of an operation: its phases, who was told and who reported, and the one decision.
#![tactic(auto)]

mod cause;
mod coordinator;
mod laws;
mod moves;
mod phase;
mod state;

pub use cause::{Cause, End, Node, Why};
pub use coordinator::Coordinator;
pub use laws::coordinator_laws;
pub use phase::{Asked, Phase};
pub use state::{Clashes, ControlState, Marks};
