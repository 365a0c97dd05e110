//! The page of a run, the lines of its steps, and the texts of refusals.
#![tactic(auto)]

mod checks;
mod ends;
mod pages;
mod refusals;
mod replies;
mod step_lines;
mod summaries;
mod text;
mod turns;

pub use checks::checked;
pub use pages::{Lines, page, page_with_lines};
pub use refusals::refusal;
pub use step_lines::line;
pub use summaries::{Tally, summary};
