//! The state after some turns of an order.

ghost use Rattle.std.specs.Prelude.{◌≡◌, [], ◌∷◌, ◌++◌, length, map, slice_index_or, slice_set, IfOk, OnOk};
ghost use Rattle.std.specs.Bool.{Decides};
ghost use Rattle.std.specs.Option.{option_copied};
ghost use Rattle.resh_bag.specs.Bag.{IsPlaced};
ghost use Rattle.resh_model.specs.Orders.{undecided, asked, abort_asked, answered, next_command, opening, replied, replies_to, served, switched, turned, Allows, AllowsDrop, IsFree};
ghost use Rattle.resh_bag.specs.Placement.{HasNoClash, IsFirstClash};
ghost use Rattle.resh_model.specs.States.{fate_of, is_at, told};

use crate::clash::{Clash, first_clash};
use crate::collection::Collection;
use resh_chunks::ChunkMap;
use resh_command::{Command, Replies, Reply};
use resh_coord::{Cause, End};
use resh_setup::{Client, Setup, Turn};
use resh_value::{NoMemory, Sequence, ShardId, Value, compare};
use std::alloc::Global;

/// What has been decided.
#[derive(Debug, Drop)]
pub(crate) enum Fate {
    Undecided,
    /// The command of this number, from 1, of this client asked for an abort, whose drop comes next.
    Asked { client: u32, number: u64 },
    Ended(End),
}

/// The collection, the map in force, what has been decided, and each client's replies so far.
#[derive(Debug, Drop)]
pub(crate) struct State {
    pub(crate) collection: Collection,
    pub(crate) map: ChunkMap,
    pub(crate) fate: Fate,
    pub(crate) answers: Vec<Replies>,
}

impl State {
    /// The state before the first turn.
    pub(crate) fn opening(alloc: Global, setup: &Setup) -> Result<State, NoMemory>
        ensures { IfOk result (λ state. told state ≡ opening setup.now) }
    {
        Ok(State {
            collection: Collection::opening(alloc, &setup.old_map, setup.documents.as_slice())?,
            map: setup.old_map.copy()?,
            fate: Fate::Undecided,
            answers: no_replies(alloc, setup.clients.as_slice())?,
        })
    }

    /// The command that a client asks next, where it has one left.
    pub(crate) fn next_command<'a>(&self, setup: &'a Setup, client: u64) -> Option<&'a Command>
        ensures { option_copied result ≡ next_command setup.now (told self.now) client }
    {
        match setup.clients.get(client) {
            Some(asking) => asking
                .commands
                .get(count_replies(self.answers.as_slice(), client)),
            None => None,
        }
    }

    /// Whether a turn may come here.
    pub(crate) fn allows(&self, alloc: Global, setup: &Setup, turn: &Turn) -> Result<bool, NoMemory>
        requires { IsPlaced self.now.map self.now.collection }
        ensures { IfOk result (λ allowed. Decides allowed (Allows setup.now (told self.now) turn.now)) }
    {
        match turn {
            Turn::Command { client, .. } => Ok(self.allows_command(setup, *client)),
            Turn::Switch => self.allows_switch(alloc, setup),
            Turn::Drop(cause) => self.allows_drop(alloc, setup, cause),
        }
    }

    fn allows_command(&self, setup: &Setup, client: u32) -> bool
        ensures { (refused : _) → Decides result (Allows setup.now (told self.now) (Turn.Command client refused)) }
    {
        is_free(&self.fate) && self.next_command(setup, client as u64).is_some()
    }

    fn allows_switch(&self, alloc: Global, setup: &Setup) -> Result<bool, NoMemory>
        requires { IsPlaced self.now.map self.now.collection }
        ensures { IfOk result (λ allowed. Decides allowed ((fate_of self.now.fate ≡ undecided)
            × HasNoClash setup.now.new_map self.now.collection)) }
    {
        if !is_undecided(&self.fate) {
            return Ok(false);
        }
        let clash = first_clash(alloc, &self.map, &setup.new_map, &self.collection)?;
        Ok(clash.is_none())
    }

    fn allows_drop(&self, alloc: Global, setup: &Setup, cause: &Cause) -> Result<bool, NoMemory>
        requires { IsPlaced self.now.map self.now.collection }
        ensures { IfOk result (λ allowed. Decides allowed (AllowsDrop setup.now (told self.now) cause.now)) }
    {
        match cause {
            Cause::Clash { shard, id } => self.allows_clash(alloc, setup, *shard, id),
            Cause::Asked { client, number } => Ok(has_asked(&self.fate, *client, *number)),
            Cause::Failed { .. } => Ok(is_undecided(&self.fate)),
            Cause::NoMemory => Ok(is_undecided(&self.fate)),
        }
    }

    fn allows_clash(
        &self,
        alloc: Global,
        setup: &Setup,
        shard: ShardId,
        id: &Value,
    ) -> Result<bool, NoMemory>
        requires { IsPlaced self.now.map self.now.collection }
        ensures { IfOk result (λ allowed. Decides allowed ((fate_of self.now.fate ≡ undecided)
            × IsFirstClash setup.now.new_map self.now.collection shard.0 id.now)) }
    {
        if !is_undecided(&self.fate) {
            return Ok(false);
        }
        let clash = first_clash(alloc, &self.map, &setup.new_map, &self.collection)?;
        Ok(is_at(&clash, shard, id))
    }

    /// Takes a turn.
    pub(crate) fn take(&mut self, alloc: Global, setup: &Setup, turn: &Turn) -> Result<(), NoMemory>
        ensures { OnOk result (told self.new ≡ turned setup.now (told self.old) turn.now) }
    {
        match turn {
            Turn::Command { client, refused } => self.serve(alloc, setup, *client, *refused),
            Turn::Switch => self.switch(alloc, setup),
            Turn::Drop(cause) => {
                self.fate = Fate::Ended(End::Aborted(cause.copy(alloc)?));
                Ok(())
            }
        }
    }

    /// Serves a client's next command; a refused one changes nothing.
    fn serve(
        &mut self,
        alloc: Global,
        setup: &Setup,
        client: u32,
        refused: bool,
    ) -> Result<(), NoMemory>
        ensures { OnOk result (told self.new ≡ served client refused (next_command setup.now (told self.old) client)
            (told self.old)) }
    {
        match self.next_command(setup, client as u64) {
            None => Ok(()),
            Some(command) => {
                if refused {
                    return self.reply(client, Reply::NoMemory);
                }
                self.answer(alloc, client, command)
            }
        }
    }

    fn answer(&mut self, alloc: Global, client: u32, command: &Command) -> Result<(), NoMemory>
        ensures { OnOk result (told self.new ≡ answered client command.now (told self.old)) }
    {
        if let Command::Abort = command {
            return self.abort(client);
        }
        let reply = self.collection.act(alloc, &self.map, command)?;
        self.reply(client, reply)
    }

    /// An abort is accepted where nothing has been decided.
    fn abort(&mut self, client: u32) -> Result<(), NoMemory>
        ensures { OnOk result (told self.new ≡ abort_asked client (fate_of self.old.fate) (told self.old)) }
    {
        if !is_undecided(&self.fate) {
            return self.reply(client, Reply::AbortTooLate);
        }
        match count_replies(self.answers.as_slice(), client as u64).checked_add(1) {
            Some(number) => {
                self.fate = Fate::Asked { client, number };
                self.reply(client, Reply::AbortAccepted)
            }
            None => Err(NoMemory),
        }
    }

    /// Gives a client one more reply.
    fn reply(&mut self, client: u32, reply: Reply) -> Result<(), NoMemory>
        ensures { OnOk result (told self.new ≡ replied client reply (told self.old)) }
    {
        add_reply(&mut self.answers, client, reply)
    }

    /// Puts the new map in force, with each document under the shard that it gives.
    fn switch(&mut self, alloc: Global, setup: &Setup) -> Result<(), NoMemory>
        ensures { OnOk result (told self.new ≡ switched setup.now (told self.old)) }
    {
        let documents = self.collection.documents(alloc)?;
        self.collection = Collection::opening(alloc, &setup.new_map, documents.as_slice())?;
        self.map = setup.new_map.copy()?;
        self.fate = Fate::Ended(End::Committed);
        Ok(())
    }
}

/// Whether a clash is there, of this shard and `_id`.
fn is_at(clash: &Option<Clash>, shard: ShardId, id: &Value) -> bool
    ensures { result ≡ is_at clash.now shard.0 id.now }
{
    match clash {
        Some(clash) => clash.shard.0 == shard.0 && compare(&clash.id, id).is_eq(),
        None => false,
    }
}

fn is_undecided(fate: &Fate) -> bool
    ensures { Decides result (fate_of fate.now ≡ undecided) }
{
    match fate {
        Fate::Undecided => true,
        Fate::Asked { .. } => false,
        Fate::Ended(_) => false,
    }
}

/// Whether no abort waits for its drop.
fn is_free(fate: &Fate) -> bool
    ensures { Decides result (IsFree (fate_of fate.now)) }
{
    match fate {
        Fate::Undecided => true,
        Fate::Asked { .. } => false,
        Fate::Ended(_) => true,
    }
}

/// Whether the command of this number of this client waits for its drop.
fn has_asked(fate: &Fate, asking: u32, numbered: u32) -> bool
    ensures { Decides result (fate_of fate.now ≡ asked asking numbered) }
{
    match fate {
        Fate::Undecided => false,
        Fate::Asked { client, number } => *client == asking && *number == numbered as u64,
        Fate::Ended(_) => false,
    }
}

fn no_replies(alloc: Global, clients: &[Client]) -> Result<Vec<Replies>, NoMemory>
    ensures { IfOk result (λ answers. answers.items ≡ map (λ client. []) clients.now) }
{
    let mut answers = Vec::with_capacity(alloc, clients.len())?;
    for _client in clients {
        answers.push(Sequence::new(alloc))?;
    }
    Ok(answers)
}

/// The number of replies that a client was given.
fn count_replies(answers: &[Replies], client: u64) -> u64
    ensures { result ≡ length (slice_index_or answers.now client []) }
{
    match answers.get(client as usize) {
        Some(replies) => replies.len(),
        None => 0,
    }
}

fn add_reply(answers: &mut Vec<Replies>, client: u32, reply: Reply) -> Result<(), NoMemory>
    ensures { OnOk result (answers.new.items ≡ slice_set answers.old.items client
        (slice_index_or answers.old.items client [] ++ reply ∷ [])) }
{
    match answers.get_mut(client as usize) {
        Some(replies) => match replies.push(reply) {
            Ok(()) => Ok(()),
            Err(_) => Err(NoMemory),
        },
        None => Ok(()),
    }
}
