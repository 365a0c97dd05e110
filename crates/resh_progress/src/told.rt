ghost use Rattle.std.specs.Prelude.{◌≡◌, ◌≢◌, true};
ghost use Rattle.resh_progress.specs.Kinds.{Kind, kind_of};
ghost use Rattle.resh_progress.specs.Tellings.{has, nothing, told_too};

use crate::message::Message;

/// The kinds of the messages that a machine was told.
#[derive(Debug, Drop, Clone, Copy, PartialEq, Eq)]
pub struct Told {
    pub prepare: bool,
    pub donate: bool,
    pub block: bool,
    pub install: bool,
    pub release: bool,
}

impl Told {
    pub fn nothing() -> Told
        ensures { result ≡ nothing }
    {
        Told {
            prepare: false,
            donate: false,
            block: false,
            install: false,
            release: false,
        }
    }

    /// Whether a message of this kind was told.
    pub fn has(&self, message: &Message) -> bool
        ensures { result ≡ has self.now (kind_of message.now) }
    {
        match message {
            Message::Prepare => self.prepare,
            Message::Donate { .. } => self.donate,
            Message::Block => self.block,
            Message::Install => self.install,
            Message::Release => self.release,
        }
    }

    pub fn add(&mut self, message: &Message)
        ensures told { self.new ≡ told_too self.old (kind_of message.now) }
        ensures this { has self.new (kind_of message.now) ≡ true }
        ensures others { (kind : Kind) → kind ≢ kind_of message.now → has self.new kind ≡ has self.old kind }
    {
        match message {
            Message::Prepare => self.prepare = true,
            Message::Donate { .. } => self.donate = true,
            Message::Block => self.block = true,
            Message::Install => self.install = true,
            Message::Release => self.release = true,
        }
    }
}
