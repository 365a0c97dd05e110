//! What a command does to the collection, and what it is answered.

ghost use Rattle.std.specs.Prelude.{◌≡◌, ◌≢◌, ◌≤◌, Ok, Err, [], ◌∷◌, ◌++◌, length, take, filter, map, IfOk, IfErr, OnOk, OnErr};
ghost use Rattle.std.specs.Option.{option_copied};
ghost use Rattle.resh_value.specs.Lookup.{id_of};
ghost use Rattle.resh_chunks.specs.Chunks.{owner_of};
ghost use Rattle.resh_filter.specs.Filters.{matches};
ghost use Rattle.resh_ops.specs.Updates.{updated};
ghost use Rattle.resh_bag.specs.Bag.{documents, held};
ghost use Rattle.resh_bag.specs.Answer.{bag_after, doing, hit, insert_doing, matching_all, on_hit, removes, reply_of, result_doing, text_limit, with_key};
ghost use Rattle.resh_model.specs.Doings.{meant};

use crate::collection::{Collection, Entry};
use resh_bag::has_key;
use resh_chunks::ChunkMap;
use resh_command::{Command, Reply};
use resh_filter::Filter;
use resh_ops::{ChangeFault, Update};
use resh_value::{Document, Documents, NoMemory, Sequence, ShardId, TEXT_LIMIT, Value};
use std::alloc::Global;

/// So many documents are shown of those that match.
const MOST_SHOWN: u64 = 10;

/// What a command does.
#[derive(Debug, Drop)]
pub(crate) enum Doing {
    /// A document comes to a shard.
    Adds {
        shard: ShardId,
        document: Document,
    },
    /// A document of a shard goes, and its result comes to the target.
    Replaces {
        shard: ShardId,
        document: Document,
        target: ShardId,
        result: Document,
    },
    /// A document of a shard goes.
    Removes {
        shard: ShardId,
        document: Document,
    },
    /// Nothing but a reply.
    Says(Reply),
}

impl Collection {
    /// Does a command by the map in force, and gives the reply. Want of memory leaves the collection as it was.
    pub(crate) fn act(
        &mut self,
        alloc: Global,
        map: &ChunkMap,
        command: &Command,
    ) -> Result<Reply, NoMemory>
        ensures reply { IfOk result (λ reply. reply ≡ reply_of (doing map.now self.old command.now)) }
        ensures ok { OnOk result (self.new ≡ bag_after self.old (doing map.now self.old command.now)) }
        ensures unchanged { OnErr result (self.new ≡ self.old) }
    {
        let doing = doing_of(alloc, map, self, command)?;
        perform(self, doing)
    }
}

fn perform(collection: &mut Collection, doing: Doing) -> Result<Reply, NoMemory>
    ensures reply { IfOk result (λ reply. reply ≡ reply_of (meant doing)) }
    ensures ok { OnOk result (collection.new ≡ bag_after collection.old (meant doing)) }
    ensures unchanged { OnErr result (collection.new ≡ collection.old) }
{
    let null = Value::Null;
    match doing {
        Doing::Adds { shard, document } => {
            collection.put(shard, document)?;
            Ok(Reply::Inserted)
        }
        Doing::Replaces {
            shard,
            document,
            target,
            result,
        } => {
            let changed = document != result;
            collection.replace(shard, document.id_or(&null), target, result)?;
            Ok(Reply::Matched { changed })
        }
        Doing::Removes { shard, document } => {
            collection.without(shard, document.id_or(&null));
            Ok(Reply::Deleted)
        }
        Doing::Says(reply) => Ok(reply),
    }
}

/// What a command does by the map in force.
fn doing_of(
    alloc: Global,
    map: &ChunkMap,
    collection: &Collection,
    command: &Command,
) -> Result<Doing, NoMemory>
    ensures { IfOk result (λ d. meant d ≡ doing map.now collection.now command.now) }
{
    match command {
        Command::Insert(document) => insert(map, collection, document),
        Command::Update { filter, update } => change(map, collection, filter, update),
        Command::Delete { filter } => delete(map, collection, filter),
        Command::Find { filter } => Ok(Doing::Says(Reply::Found {
            count: count(collection.entries(), filter),
            first: first(alloc, collection.entries(), filter)?,
        })),
        Command::Count { filter } => Ok(Doing::Says(Reply::Counted {
            count: count(collection.entries(), filter),
        })),
        Command::Abort => Ok(Doing::Says(Reply::AbortTooLate)),
    }
}

fn insert(map: &ChunkMap, collection: &Collection, document: &Document) -> Result<Doing, NoMemory>
    ensures { IfOk result (λ d. meant d ≡ insert_doing (owner_of map.now document.now) document.now
        (held collection.now (owner_of map.now document.now) (id_of document.now))) }
{
    let shard = map.owner_of(document);
    match collection.held_like(shard, document) {
        Some(_) => Ok(Doing::Says(Reply::Duplicate)),
        None => Ok(Doing::Adds {
            shard,
            document: document.copy()?,
        }),
    }
}

fn delete(map: &ChunkMap, collection: &Collection, filter: &Filter) -> Result<Doing, NoMemory>
    ensures { IfOk result (λ d. meant d ≡ with_key map.now filter.now
        (on_hit (λ document. removes (owner_of map.now filter.now) document) (hit map.now collection.now filter.now))) }
{
    if !has_key(map, filter) {
        return Ok(Doing::Says(Reply::NoKey));
    }
    match hit(map, collection, filter) {
        None => Ok(Doing::Says(Reply::NotFound)),
        Some(document) => Ok(Doing::Removes {
            shard: map.owner_of(filter.fields()),
            document: document.copy()?,
        }),
    }
}

fn change(
    map: &ChunkMap,
    collection: &Collection,
    filter: &Filter,
    update: &Update,
) -> Result<Doing, NoMemory>
    ensures { IfOk result (λ d. meant d ≡ with_key map.now filter.now
        (on_hit (λ document. result_doing map.now collection.now (owner_of map.now filter.now) document
        (updated text_limit update.now document)) (hit map.now collection.now filter.now))) }
{
    if !has_key(map, filter) {
        return Ok(Doing::Says(Reply::NoKey));
    }
    match hit(map, collection, filter) {
        None => Ok(Doing::Says(Reply::NotFound)),
        Some(document) => {
            let shard = map.owner_of(filter.fields());
            change_one(map, collection, shard, document, update)
        }
    }
}

/// The document of the filter's `_id` on the shard of its key, where it matches.
fn hit<'a>(map: &ChunkMap, collection: &'a Collection, filter: &Filter) -> Option<&'a Document>
    ensures { option_copied result ≡ hit map.now collection.now filter.now }
{
    let fields = filter.fields();
    match collection.held_like(map.owner_of(fields), fields) {
        None => None,
        Some(document) => {
            if filter.matches(document) {
                return Some(document);
            }
            None
        }
    }
}

/// What an update does to a document of a shard.
fn change_one(
    map: &ChunkMap,
    collection: &Collection,
    shard: ShardId,
    document: &Document,
    update: &Update,
) -> Result<Doing, NoMemory>
    ensures { IfOk result (λ d. meant d ≡ result_doing map.now collection.now shard.0 document.now
        (updated text_limit update.now document.now)) }
{
    match changed(update, document) {
        Err(ChangeFault::NoMemory) => Err(NoMemory),
        Err(fault) => Ok(Doing::Says(Reply::Refused(fault))),
        Ok(result) => {
            let target = map.owner_of(&result);
            if target != shard && collection.held_like(target, &result).is_some() {
                return Ok(Doing::Says(Reply::Duplicate));
            }
            Ok(Doing::Replaces {
                shard,
                document: document.copy()?,
                target,
                result,
            })
        }
    }
}

/// The document after an update, or why it can't be made.
fn changed(update: &Update, document: &Document) -> Result<Document, ChangeFault>
    ensures ok { IfOk result (λ after. updated text_limit update.now document.now ≡ Ok after) }
    ensures fault { IfErr result (λ f. f ≢ ChangeFault.NoMemory → updated text_limit update.now document.now ≡ Err f) }
{
    let change = update.change(document, TEXT_LIMIT)?;
    let mut after = document.copy()?;
    after.apply_change(&change)?;
    Ok(after)
}

/// The number of documents that match.
fn count(entries: &[Entry], wanted: &Filter) -> u64
    ensures { result ≡ length (filter (λ e. matches wanted.now e.document) entries.now) }
{
    entries
        .iter()
        .filter(|entry| wanted.matches(&entry.document))
        .count() as u64
}

/// The first documents that match, ten at most.
fn first(alloc: Global, entries: &[Entry], wanted: &Filter) -> Result<Documents, NoMemory>
    ensures { IfOk result (λ first. first ≡ take 10 (filter (matches wanted.now) (map (λ e. e.document) entries.now))) }
{
    let mut first = Sequence::new(alloc);
    for entry in entries {
        show(&mut first, &entry.document, wanted)?;
    }
    Ok(first)
}

/// Shows a document that matches, where fewer than ten are shown.
fn show(first: &mut Documents, document: &Document, wanted: &Filter) -> Result<(), NoMemory>
    requires { length first.old ≤ 10 }
    ensures { OnOk result (first.new ≡ take 10 (first.old ++ filter (matches wanted.now) (document.now ∷ []))) }
{
    if first.len() >= MOST_SHOWN {
        return Ok(());
    }
    if !wanted.matches(document) {
        return Ok(());
    }
    match first.push(document.copy()?) {
        Ok(()) => Ok(()),
        Err(_) => Err(NoMemory),
    }
}
