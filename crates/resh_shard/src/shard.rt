ghost use Rattle.std.specs.Prelude.{◌≡◌, ◌≢◌, ◌≤◌, ◌<◌, ◌↔◌, IfOk, OnOk, OnErr, length, true, false};
ghost use Rattle.std.specs.List.{All};
ghost use Rattle.resh_value.specs.Lookup.{id_of};
ghost use Rattle.resh_value.specs.Whole.{is_whole};
ghost use Rattle.resh_command.specs.declared.reply.Reply.TheVariants as reply;
ghost use Rattle.resh_value.specs.declared.value.ShardId.{ShardId as Owner};
ghost use Rattle.resh_versions.specs.Chains.{Document as Fields, IsStored};
ghost use Rattle.resh_shard.specs.Decisions.{IsAsked, IsWholeAct, IsWholeDecision, act_by, answered, done, done_by, doing_on};
ghost use Rattle.resh_shard.specs.Shards.{blocked_at, installed, is_next, map_of, opened, prepared, pruned_to, released, taken_in, taken_out, taking_in, undone_in, with_loaded};

use crate::act::{Act, Decision, TakeIn, Which};
use crate::deciding::decide;
use crate::logging;
use crate::reading::is_held;
use crate::state::ShardState;
use resh_chunks::ChunkMap;
use resh_command::{Command, Reply};
use resh_oplog::Log;
use resh_stamp::Stamp;
use resh_value::{Document, Documents, NoMemory, ShardId, Value};
use resh_versions::Versions;
use std::alloc::Global;
use std::marker::Model;

/// One shard of a cluster.
#[derive(Debug, Drop)]
pub struct Shard {
    alloc: Global,
    state: ShardState,
}

impl Model for Shard {
    ghost use Rattle.resh_shard.specs.contracts.state.ShardState as shard_state;
    ghost use Rattle.resh_shard.specs.declared.state.ShardState.{ShardState as Seen};

    ghost Value = { Seen };

    ghost coded = { shard_state.the_row.coded };

    ghost view = { λ s. s.state };
}

impl Shard {
    /// A shard without documents, which serves under its old map; it keeps the allocator.
    pub fn new(alloc: Global, id: ShardId, old: ChunkMap, new: ChunkMap, limit: u32) -> Shard
        ensures { result ≡ opened id old new limit }
    {
        let state = ShardState {
            old_map: old,
            new_map: new,
            limit,
            versions: Versions::new(alloc),
            log: Log::new(alloc, id),
            which: Which::Old,
            blocked: false,
            names: false,
        };
        Shard { alloc, state }
    }

    /// Puts a document that stands from time 0; nothing is logged. Want of memory leaves all as it was.
    pub fn load(&mut self, document: Document) -> Result<(), NoMemory>
        requires { is_whole document ≡ true }
        ensures ok { OnOk result (self.new ≡ with_loaded self.old document) }
        ensures unchanged { OnErr result (self.new ≡ self.old) }
    {
        self.state.versions.put(0, document)
    }

    /// Does a command by the map in force, on the documents of this shard alone, and logs it. `Blocked` comes exactly
    /// where writes are blocked, `Leaves` exactly where an update's result belongs to another shard, which is left to
    /// be moved; both change nothing. Else the reply is the command's. The reply that memory was wanted is free, and
    /// then nothing is changed.
    pub fn act(&mut self, command: &Command, stamp: Stamp) -> Act
        requires asked { IsAsked self.old command.now }
        requires next { is_next self.old stamp ≡ true }
        ensures blocked { (result ≡ Act.Blocked) ↔ (self.old.blocked ≡ true) }
        ensures answer { result ≢ Act.Blocked → result ≢ Act.Done reply.NoMemory
            → result ≡ answered (doing_on self.old command.now) }
        ensures state { result ≢ Act.Blocked → result ≢ Act.Done reply.NoMemory
            → self.new ≡ done stamp (doing_on self.old command.now) self.old }
        ensures unchanged { result ≡ Act.Done reply.NoMemory → self.new ≡ self.old }
        ensures waits { result ≡ Act.Blocked → self.new ≡ self.old }
        ensures leaves { (to : Owner) (document : Fields) → result ≡ Act.Leaves to document
            → self.new ≡ self.old }
        ensures whole { IsWholeAct result }
    {
        if self.state.blocked {
            return Act::Blocked;
        }
        match self.serve(command, stamp) {
            Ok(act) => act,
            Err(NoMemory) => Act::Done(Reply::NoMemory),
        }
    }

    /// Does a command. Want of memory leaves all as it was.
    fn serve(&mut self, command: &Command, stamp: Stamp) -> Result<Act, NoMemory>
        requires asked { IsAsked self.old command.now }
        requires next { is_next self.old stamp ≡ true }
        ensures answer { IfOk result (λ act. act ≡ answered (doing_on self.old command.now)) }
        ensures state { OnOk result (self.new ≡ done stamp (doing_on self.old command.now) self.old) }
        ensures unchanged { OnErr result (self.new ≡ self.old) }
        ensures whole { IfOk result IsWholeAct }
    {
        let decision = decide(&self.state, self.alloc, command)?;
        self.perform(decision, stamp)
    }

    /// Does what was decided. Want of memory leaves all as it was.
    fn perform(&mut self, decision: Decision, stamp: Stamp) -> Result<Act, NoMemory>
        requires next { is_next self.old stamp ≡ true }
        requires whole { IsWholeDecision decision }
        ensures answer { IfOk result (λ act. act ≡ act_by decision) }
        ensures state { OnOk result (self.new ≡ done_by stamp decision self.old) }
        ensures unchanged { OnErr result (self.new ≡ self.old) }
    {
        match decision {
            Decision::Writes(write, reply) => {
                logging::write(&mut self.state, self.alloc, stamp, write)?;
                Ok(Act::Done(reply))
            }
            Decision::Leaves(to, document) => Ok(Act::Leaves { to, document }),
            Decision::Says(reply) => Ok(Act::Done(reply)),
        }
    }

    /// Puts a document that moves here from another shard, where its `_id` isn't held: the first half of a move. Want
    /// of memory leaves all as it was.
    pub fn take_in(&mut self, document: Document, stamp: Stamp) -> Result<TakeIn, NoMemory>
        requires whole { is_whole document ≡ true }
        requires next { is_next self.old stamp ≡ true }
        ensures answer { IfOk result (λ t. t ≡ taking_in self.old document) }
        ensures ok { OnOk result (self.new ≡ taken_in stamp document self.old) }
        ensures undone { IfOk result (λ t. t ≡ TakeIn.Taken → undone_in (id_of document) self.new ≡ self.old) }
        ensures unchanged { OnErr result (self.new ≡ self.old) }
    {
        if is_held(&self.state, &document) {
            return Ok(TakeIn::Duplicate);
        }
        logging::put(&mut self.state, stamp, 1, document)?;
        Ok(TakeIn::Taken)
    }

    /// Takes the document of an `_id` out, which moved to another shard: the second half of a move. Where the `_id`
    /// isn't held nothing changes. Want of memory leaves all as it was.
    pub fn take_out(&mut self, id: &Value, stamp: Stamp) -> Result<(), NoMemory>
        requires { is_next self.old stamp ≡ true }
        ensures ok { OnOk result (self.new ≡ taken_out stamp id.now self.old) }
        ensures unchanged { OnErr result (self.new ≡ self.old) }
    {
        let document = match self.state.versions.now(id) {
            None => return Ok(()),
            Some(document) => document.copy()?,
        };
        logging::take(&mut self.state, self.alloc, stamp, document)
    }

    /// Takes back the document of an `_id` that was the last to move in, and its entry.
    pub fn undo_in(&mut self, id: &Value)
        requires { 0 < length self.old.log.entries }
        ensures { self.new ≡ undone_in id.now self.old }
    {
        self.state.versions.undo_put(id);
        self.state.log.undo(1);
    }

    /// Entries name recipients from now on.
    pub fn prepare(&mut self)
        ensures { self.new ≡ prepared self.old }
    {
        self.state.names = true;
    }

    /// Blocks writes, and logs a final entry for each shard. Want of memory leaves all as it was.
    pub fn block(&mut self, stamp: Stamp) -> Result<(), NoMemory>
        requires { is_next self.old stamp ≡ true }
        ensures ok { OnOk result (self.new ≡ blocked_at stamp self.old) }
        ensures unchanged { OnErr result (self.new ≡ self.old) }
    {
        let shards = self.state.new_map.shards();
        logging::log_finals(&mut self.state.log, stamp, shards)?;
        self.state.blocked = true;
        Ok(())
    }

    /// Only these documents stand, of several of one `_id` the last one. The new map is in force, and writes aren't
    /// blocked. Want of memory leaves all as it was.
    pub fn install(&mut self, documents: Documents, stamp: Stamp) -> Result<(), NoMemory>
        requires { All IsStored documents }
        ensures ok { OnOk result (self.new ≡ installed stamp.time documents self.old) }
        ensures unchanged { OnErr result (self.new ≡ self.old) }
    {
        self.state.versions = Versions::of_documents(self.alloc, stamp.time, documents)?;
        self.state.which = Which::New;
        self.state.blocked = false;
        Ok(())
    }

    /// The old map is in force, and writes aren't blocked.
    pub fn release(&mut self)
        ensures { self.new ≡ released self.old }
    {
        self.state.which = Which::Old;
        self.state.blocked = false;
    }

    /// Drops the versions that no reading from a time on can give.
    pub fn prune(&mut self, time: u64)
        ensures { self.new ≡ pruned_to time self.old }
    {
        self.state.versions.prune(time);
    }

    pub fn id(&self) -> ShardId
        ensures { result ≡ self.now.log.donor }
    {
        self.state.id()
    }

    /// Which map is in force.
    pub fn which(&self) -> Which
        ensures { result ≡ self.now.which }
    {
        self.state.which
    }

    /// Whether writes are blocked.
    pub fn blocked(&self) -> bool
        ensures { result ≡ self.now.blocked }
    {
        self.state.blocked
    }

    pub fn log(&self) -> &Log
        ensures { result.now ≡ self.now.log }
    {
        &self.state.log
    }

    pub fn versions(&self) -> &Versions
        ensures { result.now ≡ self.now.versions }
    {
        &self.state.versions
    }

    /// The map in force.
    pub fn map(&self) -> &ChunkMap
        ensures { result.now ≡ map_of self.now }
    {
        self.state.map()
    }

    pub fn old_map(&self) -> &ChunkMap
        ensures { result.now ≡ self.now.old_map }
    {
        &self.state.old_map
    }

    pub fn new_map(&self) -> &ChunkMap
        ensures { result.now ≡ self.now.new_map }
    {
        &self.state.new_map
    }
}
