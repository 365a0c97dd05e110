//! The collection that a run stands for: one bag of documents, each under its `_id` and the shard that owns it; where a
//! chunk map places them, what clashes, what a command does to them, and what the shards' own parts tell of them.
#![tactic(auto)]

mod key;
mod laws;

pub use key::{has_key, has_pattern};
pub use laws::{
    bag_laws, bags_by_shard, clashes_by_recipient, commands_by_targets, documents_stay_whole,
    doings_find, opening_laws, parts_merge, parts_rise, placement_keeps_all,
};
