use crate::cause::End;
use crate::phase::Phase;
use resh_value::{Sequence, Value};

/// A yes or no for each shard.
pub type Marks = Sequence<bool>;

/// For each shard the `_id` of a clash, where it reported one.
pub type Clashes = Sequence<Option<Value>>;

/// What contracts see of a coordinator.
#[derive(Debug, Drop)]
pub struct ControlState {
    pub phase: Phase,
    /// The time of the event that began cloning; 0 before.
    pub fetch_time: u64,
    /// Which shards were told in this phase.
    pub told: Marks,
    /// Which shards reported in this phase.
    pub reported: Marks,
    pub clashes: Clashes,
    pub decision: Option<End>,
    /// How often it crashed; it stays at the greatest number.
    pub crashes: u32,
}
