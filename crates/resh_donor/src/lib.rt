//! A donor's machine: what the coordinator's messages make of it.
#![tactic(auto)]

mod donor;
mod laws;
mod phase;

pub use donor::Donor;
pub use laws::donor_laws;
pub use phase::DonorPhase;
