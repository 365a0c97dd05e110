ghost use Rattle.std.specs.Prelude.{◌≡◌, IfOk};

use resh_ops::ChangeFault;
use resh_value::{Copied, Documents, NoMemory, Sequence};
use std::alloc::Global;

/// What a client is answered.
#[derive(Debug, Drop)]
pub enum Reply {
    Inserted,
    /// The shard that the document goes to holds another of its `_id`.
    Duplicate,
    /// One document was found; `changed` where the result differs from it.
    Matched { changed: bool },
    NotFound,
    Deleted,
    /// The number of documents that match, and the first ten by `_id` and shard.
    Found { count: u64, first: Documents },
    Counted { count: u64 },
    /// The filter lacks `_id` or a field of the shard key.
    NoKey,
    /// The update can't be made on the document.
    Refused(ChangeFault),
    AbortAccepted,
    AbortTooLate,
    /// No memory was found, and nothing changed.
    NoMemory,
}

/// A client's replies, in the order of its commands.
pub type Replies = Sequence<Reply>;

impl Reply {
    pub fn copy(&self, alloc: Global) -> Result<Reply, NoMemory>
        ensures { IfOk result (λ reply. reply ≡ self.now) }
    {
        match self {
            Reply::Inserted => Ok(Reply::Inserted),
            Reply::Duplicate => Ok(Reply::Duplicate),
            Reply::Matched { changed } => Ok(Reply::Matched { changed: *changed }),
            Reply::NotFound => Ok(Reply::NotFound),
            Reply::Deleted => Ok(Reply::Deleted),
            Reply::Found { count, first } => Ok(Reply::Found {
                count: *count,
                first: first.copy()?,
            }),
            Reply::Counted { count } => Ok(Reply::Counted { count: *count }),
            Reply::NoKey => Ok(Reply::NoKey),
            Reply::Refused(fault) => Ok(Reply::Refused(fault.copy()?)),
            Reply::AbortAccepted => Ok(Reply::AbortAccepted),
            Reply::AbortTooLate => Ok(Reply::AbortTooLate),
            Reply::NoMemory => Ok(Reply::NoMemory),
        }
    }
}

impl Copied for Reply {
    fn copied(&self, alloc: Global) -> Result<Reply, NoMemory> {
        self.copy(alloc)
    }
}
