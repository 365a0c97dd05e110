//! Where a command goes.

use resh_value::ShardId;

/// Where a command goes.
#[derive(Debug, Drop, Clone, Copy, PartialEq, Eq)]
pub enum Target {
    /// To one shard, which owns the inserted document or the filter's key.
    One(ShardId),
    /// To every shard: the filter of a find or a count lacks a field of the shard key.
    All,
    /// To no shard but for its reply: the filter of an update or a delete lacks `_id` or a field of the shard key.
    NoKey,
}
