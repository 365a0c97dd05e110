//! Setups that are made from a number.
#![tactic(auto)]

mod command_text;
mod commands;
mod documents;
mod draws;
mod file_text;
mod setup;
mod summaries;

pub use file_text::{generated_text, setup_text};
pub use setup::generate;
pub use summaries::summary;
