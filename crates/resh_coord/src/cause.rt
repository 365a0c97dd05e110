ghost use Rattle.std.specs.Prelude.{◌≡◌, IfOk};

use resh_value::{Copied, NoMemory, ShardId, Value};
use std::alloc::Global;

/// The end of a run: the new collection stands, or the old one stays.
#[derive(Debug, Drop)]
pub enum End {
    Committed,
    Aborted(Cause),
}

/// Why a run was aborted.
#[derive(Debug, Drop)]
pub enum Cause {
    /// Two documents of one `_id` from different shards would come to one shard.
    Clash { shard: ShardId, id: Value },
    /// The command of this number, from 1, of this client asked for it.
    Asked { client: u32, number: u32 },
    /// A node failed.
    Failed { node: Node, cause: Why },
    NoMemory,
}

/// A part of the cluster that can fail.
#[derive(Debug, Drop, Clone, Copy, PartialEq, Eq)]
pub enum Node {
    Coordinator,
    Shard(ShardId),
}

/// In what a node failed.
#[derive(Debug, Drop, Clone, Copy, PartialEq, Eq)]
pub enum Why {
    /// A durable step was refused.
    Commit,
    /// A message or an answer was lost 64 times in a row.
    Link,
    /// It crashed 64 times.
    Crashes,
}

impl Cause {
    pub fn copy(&self, alloc: Global) -> Result<Cause, NoMemory>
        ensures { IfOk result (λ c. c ≡ self.now) }
    {
        match self {
            Cause::Clash { shard, id } => Ok(Cause::Clash {
                shard: *shard,
                id: id.copy(alloc)?,
            }),
            Cause::Asked { client, number } => Ok(Cause::Asked {
                client: *client,
                number: *number,
            }),
            Cause::Failed { node, cause } => Ok(Cause::Failed {
                node: *node,
                cause: *cause,
            }),
            Cause::NoMemory => Ok(Cause::NoMemory),
        }
    }
}

impl Copied for Cause {
    fn copied(&self, alloc: Global) -> Result<Cause, NoMemory> {
        self.copy(alloc)
    }
}

impl End {
    pub fn copy(&self, alloc: Global) -> Result<End, NoMemory>
        ensures { IfOk result (λ end. end ≡ self.now) }
    {
        match self {
            End::Committed => Ok(End::Committed),
            End::Aborted(cause) => Ok(End::Aborted(cause.copy(alloc)?)),
        }
    }
}
