//! What the coordinator does, and what shards are told and report: rows of the table of events, made on a cluster's
//! cells.
#![tactic(auto)]

mod advancing;
mod beginning;
mod failing;
mod lanes;
mod links;
mod reporting;
mod retelling;
mod rows;
mod shards;
mod telling;

pub use advancing::{advance, may_advance};
pub use beginning::{begin, may_begin};
pub use failing::{fail, may_fail};
pub use reporting::{may_report, report};
pub use retelling::may_retell;
pub use telling::{may_tell, tell};
