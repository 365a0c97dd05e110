ghost use Rattle.std.specs.Prelude.{◌≡◌, ◌↔◌, IsTrue};
ghost use Rattle.resh_progress.specs.Kinds.{kind_of};

/// What the coordinator tells a shard.
#[derive(Debug, Drop, Clone, Copy, PartialEq, Eq)]
pub enum Message {
    /// Name the recipients in the log.
    Prepare,
    /// Donate what stood at the fetch time, and the later writes.
    Donate { fetch_time: u64 },
    /// Block writes.
    Block,
    /// The new collection takes the old one's place.
    Install,
    /// The old collection stays.
    Release,
}

impl Message {
    /// Whether both are of one kind.
    pub fn is_like(&self, other: &Message) -> bool
        ensures { IsTrue result ↔ (kind_of self.now ≡ kind_of other.now) }
    {
        match self {
            Message::Prepare => matches!(other, Message::Prepare),
            Message::Donate { .. } => matches!(other, Message::Donate { .. }),
            Message::Block => matches!(other, Message::Block),
            Message::Install => matches!(other, Message::Install),
            Message::Release => matches!(other, Message::Release),
        }
    }
}
