//! The commands of a generated setup.

ghost use Rattle.std.specs.Prelude.{◌≡◌, ◌<◌, ◌≤◌, [], ◌∷◌, ◌+◌, ◌++◌, pos, codes, IfOk, OnOk};
ghost use Rattle.serde_json.specs.View.{view};
ghost use Rattle.resh_value.specs.declared.value.Value.TheVariants.{Int};
ghost use Rattle.resh_ops.specs.declared.operator.Operator.TheVariants.{Inc, Set};
ghost use Rattle.resh_gen.specs.Draws.{state_at};
ghost use Rattle.resh_gen.specs.Streams.{AreAsked, Stands};
ghost use Rattle.resh_gen.specs.Json.{filter_data, sum_data, put_data};
ghost use Rattle.resh_gen.specs.Commands.{chosen, command_at, filter, update};

use crate::documents::document;
use crate::draws::Draws;
use resh_command::{Command, Commands};
use resh_filter::Filter;
use resh_ops::Update;
use resh_value::{NoMemory, Sequence};
use serde_json::{Value as Json, json};
use std::alloc::{AllocError, Global};

/// The documents' numbers once more and the commands' own, before the command of an index.
#[derive(Debug, Drop)]
pub(crate) struct Streams {
    index: u32,
    keys: Draws,
    choices: Draws,
}

/// The commands of each of the four clients.
#[derive(Debug, Drop)]
pub(crate) struct Asked {
    pub(crate) first: Commands,
    pub(crate) second: Commands,
    pub(crate) third: Commands,
    pub(crate) fourth: Commands,
}

impl Streams {
    /// Before the first command, where `choices` stand behind the numbers of all documents.
    #[tactic(auto, using(crate::proofs::Places::state_first))]
    pub(crate) fn new(number: u32, choices: Draws) -> Streams
        requires { choices.state ≡ state_at number 100000 }
        ensures stands { Stands number result }
        ensures index { result.index ≡ 0 }
    {
        Streams {
            index: 0,
            keys: Draws::new(number),
            choices,
        }
    }
}

/// So many commands of each client, one client after another.
pub(crate) fn all_commands(
    alloc: Global,
    number: u32,
    choices: Draws,
    turns: u32,
) -> Result<Asked, NoMemory>
    requires turns { turns ≤ 5000 }
    requires choices { choices.state ≡ state_at number 100000 }
    ensures { IfOk result (AreAsked number turns) }
{
    let mut streams = Streams::new(number, choices);
    let mut first = Vec::with_capacity(alloc, turns as usize)?;
    let mut second = Vec::with_capacity(alloc, turns as usize)?;
    let mut third = Vec::with_capacity(alloc, turns as usize)?;
    let mut fourth = Vec::with_capacity(alloc, turns as usize)?;
    for _turn in 0..turns {
        push_next(alloc, number, &mut streams, &mut first)?;
        push_next(alloc, number, &mut streams, &mut second)?;
        push_next(alloc, number, &mut streams, &mut third)?;
        push_next(alloc, number, &mut streams, &mut fourth)?;
    }
    Ok(Asked {
        first: Sequence::from_vec(first),
        second: Sequence::from_vec(second),
        third: Sequence::from_vec(third),
        fourth: Sequence::from_vec(fourth),
    })
}

/// Puts the next command behind those of a client.
fn push_next(
    alloc: Global,
    number: u32,
    streams: &mut Streams,
    commands: &mut Vec<Command>,
) -> Result<(), NoMemory>
    requires stands { Stands number streams.old }
    requires index { streams.old.index < 20000 }
    ensures commands { OnOk result
        (commands.new.items ≡ commands.old.items ++ command_at number streams.old.index ∷ []) }
    ensures stands { Stands number streams.new }
    ensures index { streams.new.index ≡ streams.old.index + 1 }
{
    let index = streams.index;
    let x = streams.keys.below_thousand();
    let y = streams.keys.below_thousand();
    let choice = streams.choices.below_four();
    let z = streams.choices.below_thousand();
    streams.index = index + 1;
    commands.push(chosen(alloc, choice, index, (x, y), z)?)?;
    Ok(())
}

/// The command of a choice.
fn chosen(
    alloc: Global,
    choice: u32,
    index: u32,
    key: (u32, u32),
    z: u32,
) -> Result<Command, NoMemory>
    requires choice { choice < 4 }
    requires index { index < 20000 }
    requires z { z < 1000 }
    ensures { IfOk result (λ command. command ≡ chosen choice index key.0 key.1 z) }
{
    if choice == 0 {
        return Ok(Command::Insert(document(alloc, 50_000 + index, z, 999 - z)?));
    }
    let filter = filter(alloc, index, key)?;
    match choice {
        1 => Ok(Command::Update {
            filter,
            update: sum(alloc)?,
        }),
        2 => Ok(Command::Update {
            filter,
            update: put(alloc, z)?,
        }),
        _ => Ok(Command::Delete { filter }),
    }
}

/// The `_id` and the key of a document.
#[tactic(auto, using(crate::proofs::Readings::filter_given))]
fn filter(alloc: Global, id: u32, key: (u32, u32)) -> Result<Filter, NoMemory>
    ensures { IfOk result (λ f. f ≡ filter id key.0 key.1) }
{
    let json = filter_json(alloc, id, key.0, key.1)?;
    match Filter::walk(alloc, &json) {
        Ok(filter) => Ok(filter),
        Err(_) => Err(NoMemory),
    }
}

fn filter_json(alloc: Global, id: u32, x: u32, y: u32) -> Result<Json, AllocError>
    ensures { IfOk result (λ json. view json ≡ filter_data id x y) }
{
    json!(in alloc; {"_id": id, "x": x, "y": y})
}

/// An update that adds one to `n`.
#[tactic(auto, using(crate::proofs::Readings::sum_given))]
fn sum(alloc: Global) -> Result<Update, NoMemory>
    ensures { IfOk result (λ u. u ≡ update (Inc (pos 1)) (codes "n")) }
{
    let json = sum_json(alloc)?;
    match Update::walk(alloc, &json) {
        Ok(update) => Ok(update),
        Err(_) => Err(NoMemory),
    }
}

fn sum_json(alloc: Global) -> Result<Json, AllocError>
    ensures { IfOk result (λ json. view json ≡ sum_data) }
{
    json!(in alloc; {"$inc": {"n": 1u32}})
}

/// An update that gives `y` a number.
#[tactic(auto, using(crate::proofs::Readings::put_given))]
fn put(alloc: Global, z: u32) -> Result<Update, NoMemory>
    ensures { IfOk result (λ u. u ≡ update (Set (Int (pos z))) (codes "y")) }
{
    let json = put_json(alloc, z)?;
    match Update::walk(alloc, &json) {
        Ok(update) => Ok(update),
        Err(_) => Err(NoMemory),
    }
}

fn put_json(alloc: Global, z: u32) -> Result<Json, AllocError>
    ensures { IfOk result (λ json. view json ≡ put_data z) }
{
    json!(in alloc; {"$set": {"y": z}})
}
