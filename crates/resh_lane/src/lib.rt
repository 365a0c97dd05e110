//! One lane of a recipient: it takes the pieces of all donors' feeds by the rules, each at its position.
#![tactic(auto)]

mod give;
mod lane;
mod laws;

pub use lane::{Applying, Lane};
pub use laws::lane_laws;
