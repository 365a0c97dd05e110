//! What a recipient's lanes hold of the collection, once they have taken all that comes to it.
#![tactic(auto)]

mod laws;

pub use laws::{cut_laws, note_laws, part_laws};
