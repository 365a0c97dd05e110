//! The cells of a cluster, their names and their clocks.
#![tactic(auto)]

mod cell;
mod cells;
mod cluster;
mod cuts;
mod joining;
mod stamping;

pub use cell::Cell;
pub use cells::Cells;
pub use cluster::{ClientCell, Clocks, Cluster, LaneCell, LinkCell, ShardCell};
pub use cuts::{Cuts, Sent};
pub use joining::join;
pub use stamping::{set_clocks, stamp_of};
