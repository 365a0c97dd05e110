//! Cluster time: clocks, stamps of events, and marks of what an event logs.
#![tactic(auto)]

mod clock;
mod laws;
mod stamp;

pub use clock::{Clock, END_OF_TIME};
pub use laws::stamp_laws;
pub use stamp::{Logged, Mark, Stamp, Stamped};
