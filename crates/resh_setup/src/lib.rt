//! What a cluster file says, and the turns and events of a run.
#![tactic(auto)]

mod client;
mod event;
mod fault;
mod plan;
mod seen;
mod setup;
mod trace;
mod turn;

pub use client::{Answers, Client, Clients};
pub use event::{Event, Events, MessageKind};
pub use fault::SetupFault;
pub use plan::{Plan, Planned, Who};
pub use seen::{Seen, SeenList, WriteKind};
pub use setup::{Holdings, Setup};
pub use trace::{Made, Met, Trace};
pub use turn::{Turn, Turns};
