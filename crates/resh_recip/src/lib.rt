//! A recipient's machine: what the coordinator's messages, and its own two moves, make of it.
#![tactic(auto)]

mod laws;
mod phase;
mod recipient;

pub use laws::recipient_laws;
pub use phase::RecipientPhase;
pub use recipient::Recipient;
