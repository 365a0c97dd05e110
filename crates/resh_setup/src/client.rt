ghost use Rattle.std.specs.Prelude.{◌≡◌, IfOk};

use resh_command::{Commands, Replies};
use resh_value::{Copied, NoMemory, Sequence, Words};
use std::alloc::Global;

/// A client's name and its commands.
#[derive(Debug, Drop)]
pub struct Client {
    pub name: Words,
    pub commands: Commands,
}

pub type Clients = Sequence<Client>;
/// The replies of each client.
pub type Answers = Sequence<Replies>;

impl Client {
    pub fn copy(&self) -> Result<Client, NoMemory>
        ensures { IfOk result (λ client. client ≡ self.now) }
    {
        Ok(Client {
            name: self.name.copy()?,
            commands: self.commands.copy()?,
        })
    }
}

impl Copied for Client {
    fn copied(&self, _alloc: Global) -> Result<Client, NoMemory> {
        self.copy()
    }
}
