//! The top call: words and a source in, a text and a status out.
#![tactic(auto)]

mod cluster;
mod decision;
mod laws;
mod plain;
mod texts;
mod words;

pub use laws::forms_are_read;
pub use plain::{Outcome, plain_main};
