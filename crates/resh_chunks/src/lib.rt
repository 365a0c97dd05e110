//! Chunk maps: which shard owns a key.
#![tactic(auto)]

mod bound;
mod chunk_map;
mod faults;
mod laws;
mod owner;
mod pattern;
mod rows;

pub use bound::{Bound, ChunkRow, Key};
pub use chunk_map::ChunkMap;
pub use faults::{ChunkFault, PatternFault};
pub use laws::each_key_has_one_owner;
pub use pattern::KeyPattern;
