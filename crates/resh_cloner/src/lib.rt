//! What a cloner reads: a donor's documents at the fetch time for a recipient, batch by batch.
#![tactic(auto)]

mod batch;
mod laws;
mod next;

pub use batch::next_batch;
pub use laws::clone_laws;
pub use next::next_of;
