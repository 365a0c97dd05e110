//! The rules by which a donor's entries come to a recipient's lane, whatever order the donors' entries come in.
#![tactic(auto)]

mod fits;
mod laws;
mod pool;
mod rule;
mod shelf;
mod upkeep;

pub use laws::rule_laws;
pub use pool::Pool;
pub use rule::Rule;
