//! What a command comes to on a shard, before anything is changed.

ghost use Rattle.std.specs.Prelude.{◌≡◌, ◌≢◌, Ok, Err, IfOk, IfErr, true};
ghost use Rattle.std.specs.List.{list_any};
ghost use Rattle.resh_value.specs.Change.{is_named};
ghost use Rattle.resh_value.specs.Whole.{has_rising_names, is_whole};
ghost use Rattle.resh_chunks.specs.Chunks.{owner_of};
ghost use Rattle.resh_ops.specs.Updates.{updated};
ghost use Rattle.resh_versions.specs.Chains.{IsStored};
ghost use Rattle.resh_bag.specs.Answer.{result_doing};
ghost use Rattle.resh_shard.specs.Decisions.{IsAsked, IsWholeDecision, decided, decided_turn, doing_on, names_key, names_one};
ghost use Rattle.resh_shard.specs.Differences.{change_between};
ghost use Rattle.resh_shard.specs.Shards.{bag_of, map_of, number_of};

use crate::act::{Decision, Write};
use crate::reading::{count, first, held, hit};
use crate::state::ShardState;
use resh_bag::has_key;
use resh_command::{Command, Reply};
use resh_filter::Filter;
use resh_ops::{ChangeFault, Update};
use resh_value::{Change, Document, NoMemory, Value, Words};
use std::alloc::Global;

/// What a command comes to on this shard.
pub(crate) fn decide(
    state: &ShardState,
    alloc: Global,
    command: &Command,
) -> Result<Decision, NoMemory>
    requires { IsAsked state.now command.now }
    ensures decision { IfOk result (λ d. d ≡ decided state.now (doing_on state.now command.now)) }
    ensures whole { IfOk result IsWholeDecision }
{
    match command {
        Command::Insert(document) => insert(state, document),
        Command::Update { filter, update } => change(state, filter, update),
        Command::Delete { filter } => delete(state, filter),
        Command::Find { filter } => Ok(Decision::Says(Reply::Found {
            count: count(&state.versions, filter)?,
            first: first(alloc, &state.versions, filter)?,
        })),
        Command::Count { filter } => Ok(Decision::Says(Reply::Counted {
            count: count(&state.versions, filter)?,
        })),
        Command::Abort => Ok(Decision::Says(Reply::AbortTooLate)),
    }
}

fn insert(state: &ShardState, document: &Document) -> Result<Decision, NoMemory>
    requires whole { is_whole document.now ≡ true }
    requires owned { owner_of (map_of state.now) document.now ≡ number_of state.now }
    ensures decision { IfOk result (λ d. d ≡ decided state.now (doing_on state.now (Command.Insert document.now))) }
    ensures whole { IfOk result IsWholeDecision }
{
    let null = Value::Null;
    match held(state, document.id_or(&null)) {
        Some(_) => Ok(Decision::Says(Reply::Duplicate)),
        None => Ok(Decision::Writes(Write::Puts(document.copy()?), Reply::Inserted)),
    }
}

fn delete(state: &ShardState, filter: &Filter) -> Result<Decision, NoMemory>
    ensures decision { IfOk result (λ d. d ≡ decided state.now (doing_on state.now (Command.Delete filter.now))) }
    ensures whole { IfOk result IsWholeDecision }
{
    if !has_key(state.map(), filter) {
        return Ok(Decision::Says(Reply::NoKey));
    }
    match hit(state, filter) {
        None => Ok(Decision::Says(Reply::NotFound)),
        Some(document) => Ok(Decision::Writes(Write::Takes(document.copy()?), Reply::Deleted)),
    }
}

fn change(state: &ShardState, filter: &Filter, update: &Update) -> Result<Decision, NoMemory>
    ensures decision { IfOk result (λ d. d ≡ decided state.now
        (doing_on state.now (Command.Update filter.now update.now))) }
    ensures whole { IfOk result IsWholeDecision }
{
    if !has_key(state.map(), filter) {
        return Ok(Decision::Says(Reply::NoKey));
    }
    match hit(state, filter) {
        None => Ok(Decision::Says(Reply::NotFound)),
        Some(document) => change_one(state, document, update),
    }
}

/// What an update of a document of this shard comes to.
fn change_one(
    state: &ShardState,
    document: &Document,
    update: &Update,
) -> Result<Decision, NoMemory>
    requires { IsStored document.now }
    ensures decision { IfOk result (λ d. d ≡ decided state.now
        (result_doing (map_of state.now) (bag_of state.now) (number_of state.now) document.now
        (updated state.now.limit update.now document.now))) }
    ensures whole { IfOk result IsWholeDecision }
{
    match changed(update, document, state.limit) {
        Err(ChangeFault::NoMemory) => Err(NoMemory),
        Err(fault) => Ok(Decision::Says(Reply::Refused(fault))),
        Ok((change, after)) => {
            if !state.owns(&after) {
                return Ok(Decision::Leaves(state.map().owner_of(&after), after));
            }
            turn(state, document, change, after)
        }
    }
}

/// What an update comes to whose result stays on this shard.
fn turn(
    state: &ShardState,
    before: &Document,
    change: Change,
    after: Document,
) -> Result<Decision, NoMemory>
    requires change { change ≡ change_between before.now after }
    requires rising { has_rising_names change.assign ≡ true }
    requires whole { is_whole after ≡ true }
    ensures decision { IfOk result (λ d. d ≡ decided_turn state.now before.now after) }
    ensures whole { IfOk result IsWholeDecision }
{
    if before == &after {
        return Ok(Decision::Says(Reply::Matched { changed: false }));
    }
    let before = before.copy()?;
    let reply = Reply::Matched { changed: true };
    if names_key(state, &change) {
        return Ok(Decision::Writes(Write::Rekeys { before, after }, reply));
    }
    let write = Write::Turns {
        before,
        change,
        after,
    };
    Ok(Decision::Writes(write, reply))
}

/// The change that an update makes and the document after it, or why it can't be made. No update's change names `_id`,
/// so the document after it can be stored too.
fn changed(
    update: &Update,
    document: &Document,
    limit: u32,
) -> Result<(Change, Document), ChangeFault>
    requires { IsStored document.now }
    ensures ok { IfOk result (λ made. (updated limit update.now document.now ≡ Ok made.1)
        × (made.0 ≡ change_between document.now made.1)) }
    ensures whole { IfOk result (λ made. (has_rising_names made.0.assign ≡ true) × (is_whole made.1 ≡ true)) }
    ensures fault { IfErr result (λ f. f ≢ ChangeFault.NoMemory
        → updated limit update.now document.now ≡ Err f) }
{
    let change = update.change(document, limit)?;
    let mut after = document.copy()?;
    after.apply_change(&change)?;
    Ok((change, after))
}

/// Whether a change names a field of either key.
fn names_key(state: &ShardState, change: &Change) -> bool
    ensures { result ≡ names_key state.now change.now }
{
    names_one(change, state.old_map.pattern().names().as_slice())
        || names_one(change, state.new_map.pattern().names().as_slice())
}

fn names_one(change: &Change, names: &[Words]) -> bool
    ensures { result ≡ names_one names.now change.now }
{
    names.iter().any(|name| change.names(name))
}
