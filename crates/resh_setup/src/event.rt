ghost use Rattle.std.specs.Prelude.{◌≡◌, IfOk};

use resh_coord::Cause;
use resh_value::{Copied, NoMemory, Sequence, ShardId};
use std::alloc::Global;

/// What happens in a cluster: a step of a file, or a failure.
#[derive(Debug, Drop)]
pub enum Event {
    /// The client asks its next command.
    Client {
        client: u32,
    },
    /// The coordinator starts.
    Begin,
    /// The shard hears the phase's message.
    Tell {
        shard: ShardId,
    },
    /// The shard hears an earlier message again.
    Retell {
        shard: ShardId,
        message: MessageKind,
    },
    /// The coordinator comes to its next phase.
    Advance,
    /// The link gets documents of the fetch time.
    Clone {
        recipient: ShardId,
        donor: ShardId,
    },
    /// The link gets entries of the donor's log.
    Fetch {
        recipient: ShardId,
        donor: ShardId,
    },
    /// The link's first items are cut by lane.
    Cut {
        recipient: ShardId,
        donor: ShardId,
    },
    /// The lane gets its next piece of the donor.
    Apply {
        recipient: ShardId,
        donor: ShardId,
        lane: u32,
    },
    /// The lane gets the donor's piece of this position once more.
    Again {
        recipient: ShardId,
        donor: ShardId,
        lane: u32,
        position: u32,
    },
    /// The link's batch is kept.
    Record {
        recipient: ShardId,
        donor: ShardId,
    },
    /// The link goes back to what it kept.
    Crash {
        recipient: ShardId,
        donor: ShardId,
    },
    /// The recipient tells the coordinator how far it is.
    Report {
        recipient: ShardId,
    },
    /// A link of a (recipient, donor), or the coordinator where it is `None`, fails. It is no step of a file.
    Fail {
        link: Option<(ShardId, ShardId)>,
        cause: Cause,
    },
}

/// A message to a shard by its kind alone.
#[derive(Debug, Drop, Clone, Copy, PartialEq, Eq)]
pub enum MessageKind {
    Prepare,
    Donate,
    Block,
    Install,
    Release,
}

/// Events one after another.
pub type Events = Sequence<Event>;

impl Event {
    pub fn copy(&self, alloc: Global) -> Result<Event, NoMemory>
        ensures { IfOk result (λ event. event ≡ self.now) }
    {
        Ok(match *self {
            Event::Client { client } => Event::Client { client },
            Event::Begin => Event::Begin,
            Event::Tell { shard } => Event::Tell { shard },
            Event::Retell { shard, message } => Event::Retell { shard, message },
            Event::Advance => Event::Advance,
            Event::Clone { recipient, donor } => Event::Clone { recipient, donor },
            Event::Fetch { recipient, donor } => Event::Fetch { recipient, donor },
            Event::Cut { recipient, donor } => Event::Cut { recipient, donor },
            Event::Apply {
                recipient,
                donor,
                lane,
            } => Event::Apply {
                recipient,
                donor,
                lane,
            },
            Event::Again {
                recipient,
                donor,
                lane,
                position,
            } => Event::Again {
                recipient,
                donor,
                lane,
                position,
            },
            Event::Record { recipient, donor } => Event::Record { recipient, donor },
            Event::Crash { recipient, donor } => Event::Crash { recipient, donor },
            Event::Report { recipient } => Event::Report { recipient },
            Event::Fail { link, ref cause } => Event::Fail {
                link,
                cause: cause.copy(alloc)?,
            },
        })
    }
}

impl Copied for Event {
    fn copied(&self, alloc: Global) -> Result<Event, NoMemory> {
        self.copy(alloc)
    }
}
