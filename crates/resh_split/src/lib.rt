//! How the items of a link are split by `_id` among the lanes of the recipient.
#![tactic(auto)]

mod counts;
mod lane;
mod laws;
mod splitting;

pub use counts::ends_of;
pub use lane::{id_lane, lane_of};
pub use laws::split_laws;
pub use splitting::{Parts, Pieces, split};
