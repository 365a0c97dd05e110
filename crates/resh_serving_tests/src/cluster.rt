//! Shards that one client asks through the router, command by command, with no copies, batches or messages.

ghost use Rattle.std.specs.Prelude.{◌≡◌, true, IsTrue};
ghost use Rattle.std.specs.List.{list_all};
ghost use Rattle.resh_value.specs.Whole.{is_whole};
ghost use Rattle.resh_router.specs.Merging.{are_counted, are_found, is_counted, is_found};
ghost use Rattle.resh_shard.specs.Decisions.{IsAsked};
ghost use Rattle.resh_shard.specs.Shards.{is_next};

use resh_chunks::ChunkMap;
use resh_router::{Target, merge_found, target};
use resh_setup::{Holdings, Setup};
use resh_shard::{Act, Command, Reply, Shard, TakeIn};
use resh_stamp::Stamp;
use resh_value::{Document, Documents, NoMemory, ShardId, Value};
use std::alloc::Global;
use std::test::Fail;

/// A document's text may have so many bytes.
const LONGEST_TEXT: u32 = 16_384;

/// The shards of a setup, and the time of the last command.
#[derive(Drop)]
pub(crate) struct Cluster {
    alloc: Global,
    shards: Vec<Shard>,
    time: u64,
}

/// The shards of a setup, each with its documents.
pub(crate) fn opened(alloc: Global, setup: &Setup) -> Result<Cluster, Fail> {
    let mut shards = empty_shards(alloc, setup)?;
    load_all(shards.as_mut_slice(), setup)?;
    Ok(Cluster {
        alloc,
        shards,
        time: 0,
    })
}

fn empty_shards(alloc: Global, setup: &Setup) -> Result<Vec<Shard>, Fail> {
    let mut shards = Vec::new(alloc);
    for number in 0..setup.old_map.shards() {
        shards.push(empty_shard(alloc, setup, ShardId(number))?)?;
    }
    Ok(shards)
}

fn empty_shard(alloc: Global, setup: &Setup, id: ShardId) -> Result<Shard, NoMemory> {
    let old_map = setup.old_map.copy()?;
    let new_map = setup.new_map.copy()?;
    Ok(Shard::new(alloc, id, old_map, new_map, LONGEST_TEXT))
}

fn load_all(shards: &mut [Shard], setup: &Setup) -> Result<(), Fail> {
    for document in setup.documents.as_slice() {
        let owner = setup.old_map.owner_of(document).0 as usize;
        load(shards, owner, document)?;
    }
    Ok(())
}

fn load(shards: &mut [Shard], owner: usize, document: &Document) -> Result<(), Fail> {
    match shards.get_mut(owner) {
        Some(shard) if document.is_whole() => Ok(shard.load(document.copy()?)?),
        _ => Err(Fail::from("no such document")),
    }
}

impl Cluster {
    /// The first shard alone.
    pub(crate) fn into_first(self) -> Result<Shard, Fail> {
        match self.shards.into_iter().next() {
            Some(shard) => Ok(shard),
            None => Err(Fail::from("no shard")),
        }
    }

    /// The reply to a command by the map in force.
    pub(crate) fn ask(&mut self, command: &Command) -> Result<Reply, Fail> {
        self.time = self.time.wrapping_add(1);
        if let Command::Abort = command {
            return Err(Fail::from("an abort is no shard's command"));
        }
        match target(self.map()?, command) {
            Target::NoKey => self.ask_one(0, command),
            Target::One(shard) => self.ask_one(shard.0 as usize, command),
            Target::All => self.ask_all(command),
        }
    }

    fn map(&self) -> Result<&ChunkMap, Fail> {
        match self.shards.get(0) {
            Some(shard) => Ok(shard.map()),
            None => Err(Fail::from("no shard")),
        }
    }

    fn stamp(&self) -> Stamp {
        Stamp {
            time: self.time,
            node: 0,
        }
    }

    fn ask_one(&mut self, place: usize, command: &Command) -> Result<Reply, Fail> {
        match self.act(place, command)? {
            Act::Done(reply) => Ok(reply),
            Act::Leaves { to, document } => self.move_to(place, to.0 as usize, document),
            Act::Blocked => Err(Fail::from("writes are blocked")),
        }
    }

    fn ask_all(&mut self, command: &Command) -> Result<Reply, Fail> {
        let mut parts = Vec::new(self.alloc);
        for number in 0..self.map()?.shards() {
            let reply = self.ask_one(number as usize, command)?;
            parts.push((ShardId(number), reply))?;
        }
        merged(self.alloc, parts)
    }

    fn act(&mut self, place: usize, command: &Command) -> Result<Act, Fail> {
        let stamp = self.stamp();
        match self.shards.get_mut(place) {
            Some(shard) if may_ask(shard, command) && is_next(shard, stamp) => Ok(shard.act(
                command, stamp,
            )),
            _ => Err(Fail::from("no shard that may be asked")),
        }
    }

    /// Moves a document to another shard.
    fn move_to(&mut self, place: usize, target: usize, document: Document) -> Result<Reply, Fail> {
        let stamp = self.stamp();
        let id = document.copy_id(self.alloc)?;
        match self.shards.get_mut(target) {
            None => return Err(Fail::from("no such shard")),
            Some(shard) => {
                if let TakeIn::Duplicate = take_in_again(shard, &id, document, stamp)? {
                    return Ok(Reply::Duplicate);
                }
            }
        }
        self.take_out(place, &id)?;
        Ok(Reply::Matched { changed: true })
    }

    fn take_out(&mut self, place: usize, id: &Value) -> Result<(), Fail> {
        let stamp = self.stamp();
        match self.shards.get_mut(place) {
            Some(shard) if is_next(shard, stamp) => Ok(shard.take_out(id, stamp)?),
            _ => Err(Fail::from("no such shard")),
        }
    }

    /// Puts the new map in force, and each document on its new owner.
    pub(crate) fn switch(&mut self) -> Result<(), Fail> {
        self.time = self.time.wrapping_add(1);
        let stamp = self.stamp();
        let mut parts = self.parts()?.into_vec();
        for shard in self.shards.iter_mut().rev() {
            install(shard, parts.pop(), stamp)?;
        }
        Ok(())
    }

    /// The documents of each shard by the new map.
    fn parts(&self) -> Result<Holdings, Fail> {
        let mut parts = Holdings::new(self.alloc);
        for number in 0..self.map()?.shards() {
            parts.push(self.part(ShardId(number))?)?;
        }
        Ok(parts)
    }

    fn part(&self, owner: ShardId) -> Result<Documents, Fail> {
        let mut part = Documents::new(self.alloc);
        for shard in self.shards.iter() {
            add_owned(&mut part, shard, owner)?;
        }
        Ok(part)
    }

    /// The documents that each shard holds.
    pub(crate) fn holdings(&self) -> Result<Holdings, Fail> {
        let mut holdings = Holdings::new(self.alloc);
        for shard in self.shards.iter() {
            holdings.push(held(self.alloc, shard)?)?;
        }
        Ok(holdings)
    }
}

fn install(shard: &mut Shard, part: Option<Documents>, stamp: Stamp) -> Result<(), Fail> {
    match part {
        Some(part) if are_whole(part.as_slice()) => Ok(shard.install(part, stamp)?),
        _ => Err(Fail::from("no documents to install")),
    }
}

/// Adds the documents of a shard that an owner has by the new map.
fn add_owned(part: &mut Documents, shard: &Shard, owner: ShardId) -> Result<(), Fail> {
    for document in shard.versions().walk_now(None) {
        if shard.new_map().owner_of(document) == owner {
            part.push(document.copy()?)?;
        }
    }
    Ok(())
}

fn held(alloc: Global, shard: &Shard) -> Result<Documents, Fail> {
    let mut held = Documents::new(alloc);
    for document in shard.versions().walk_now(None) {
        held.push(document.copy()?)?;
    }
    Ok(held)
}

/// A document is taken in, taken back, and taken in again.
fn take_in_again(
    shard: &mut Shard,
    id: &Value,
    document: Document,
    stamp: Stamp,
) -> Result<TakeIn, Fail> {
    if let TakeIn::Duplicate = take_in(shard, document.copy()?, stamp)? {
        return Ok(TakeIn::Duplicate);
    }
    if shard.log().len() == 0 {
        return Err(Fail::from("nothing was logged"));
    }
    shard.undo_in(id);
    take_in(shard, document, stamp)
}

fn take_in(shard: &mut Shard, document: Document, stamp: Stamp) -> Result<TakeIn, Fail> {
    if document.is_whole() && is_next(shard, stamp) {
        return Ok(shard.take_in(document, stamp)?);
    }
    Err(Fail::from("nothing that may be taken in"))
}

fn are_whole(documents: &[Document]) -> bool
    ensures { result ≡ list_all is_whole documents.now }
{
    documents.iter().all(|document| document.is_whole())
}

/// Whether the stamp is above those of the shard's entries.
pub(crate) fn is_next(shard: &Shard, stamp: Stamp) -> bool
    ensures { result ≡ is_next shard.now stamp }
{
    match shard.log().last_mark() {
        None => true,
        Some(mark) => mark.stamp < stamp,
    }
}

/// Whether the shard may be asked: it owns an inserted document, which can be stored.
pub(crate) fn may_ask(shard: &Shard, command: &Command) -> bool
    ensures { IsTrue result → IsAsked shard.now command.now }
{
    match command {
        Command::Insert(document) => document.is_whole()
            && shard.map().owner_of(document).0 == shard.id().0,
        Command::Abort => false,
        _ => true,
    }
}

/// The one reply of several.
fn merged(alloc: Global, parts: Vec<(ShardId, Reply)>) -> Result<Reply, Fail> {
    if parts.is_empty() || !(all_found(parts.as_slice()) || all_counted(parts.as_slice())) {
        return Err(Fail::from("no replies of one kind"));
    }
    Ok(merge_found(alloc, parts)?)
}

fn all_found(parts: &[(ShardId, Reply)]) -> bool
    ensures { result ≡ are_found parts.now }
{
    parts.iter().all(|(_, reply)| is_found(reply))
}

fn all_counted(parts: &[(ShardId, Reply)]) -> bool
    ensures { result ≡ are_counted parts.now }
{
    parts.iter().all(|(_, reply)| is_counted(reply))
}

fn is_found(reply: &Reply) -> bool
    ensures { result ≡ is_found reply.now }
{
    match reply {
        Reply::Found { .. } => true,
        _ => false,
    }
}

fn is_counted(reply: &Reply) -> bool
    ensures { result ≡ is_counted reply.now }
{
    match reply {
        Reply::Counted { .. } => true,
        _ => false,
    }
}
