//! Documents by `_id`, as they stood at each time.
#![tactic(auto)]

mod chain;
mod laws;
mod version;
mod versions;
mod walk;

pub use laws::{list_laws, version_laws};
pub use versions::Versions;
pub use walk::Walk;
