//! The plain program: an order is served turn by turn.

ghost use Rattle.std.specs.Prelude.{◌≡◌, ◌==◌, ℕ, None, filter, map, IfOk, MatchOption};
ghost use Rattle.std.specs.Bool.{Decides};
ghost use Rattle.resh_chunks.specs.Chunks.{owner_of};
ghost use Rattle.resh_coord.specs.declared.cause.End.{End as WhichEnd};
ghost use Rattle.resh_model.specs.Orders.{holdings_of, last_state, next_command, opening, AllowsAll, IsFinished, IsLawful};
ghost use Rattle.resh_bag.specs.Placement.{parts};
ghost use Rattle.resh_model.specs.Runs.{page_of};
ghost use Rattle.resh_model.specs.States.{told};
ghost use Rattle.resh_report.specs.Lines.{names_of};
ghost use Rattle.resh_report.specs.Page.{page_text};

use crate::collection::{Collection, Entry};
use crate::outcome::{Replay, Served};
use crate::state::{Fate, State};
use resh_chunks::ChunkMap;
use resh_report::page;
use resh_setup::{Holdings, Setup, Turn, Turns};
use resh_value::{Documents, NoMemory, Sequence};
use std::alloc::Global;

/// Serves an order from its beginning; `None` exactly where it isn't lawful.
pub fn replay(alloc: Global, setup: &Setup, order: &Turns) -> Result<Option<Replay>, NoMemory>
    ensures { IfOk result (λ r. MatchOption r ((end : WhichEnd) → IsLawful setup.now order.now end → ⊥)
        (λ replay. IsLawful setup.now order.now replay.end × (replay.answers ≡ (last_state setup.now order.now).answers)
        × (replay.holdings ≡ holdings_of (last_state setup.now order.now))
        × (replay.page.items ≡ page_of setup.now order.now replay.end))) }
{
    match served(alloc, setup, order)? {
        None => Ok(None),
        Some(served) => Ok(Some(shown(alloc, setup, order, served)?)),
    }
}

/// With the page of what was served.
fn shown(alloc: Global, setup: &Setup, order: &Turns, served: Served) -> Result<Replay, NoMemory>
    ensures { IfOk result (λ replay. (replay.end ≡ served.end) × (replay.answers ≡ served.answers)
        × (replay.holdings ≡ served.holdings)
        × (replay.page.items
        ≡ page_text setup.now.shards
        (names_of setup.now.clients) order.now served.end served.answers served.holdings)) }
{
    let Served {
        end,
        answers,
        holdings,
    } = served;
    let page = page(alloc, setup, order, &end, &answers, &holdings)?;
    Ok(Replay {
        end,
        answers,
        holdings,
        page,
    })
}

fn served(alloc: Global, setup: &Setup, order: &Turns) -> Result<Option<Served>, NoMemory>
    ensures { IfOk result (λ r. MatchOption r ((end : WhichEnd) → IsLawful setup.now order.now end → ⊥)
        (λ served. IsLawful setup.now order.now served.end × (served.answers
        ≡ (last_state setup.now order.now).answers) × (served.holdings
        ≡ holdings_of (last_state setup.now order.now)))) }
{
    match walk(alloc, setup, order.as_slice())? {
        None => Ok(None),
        Some(state) => finish(alloc, setup, state),
    }
}

/// The state after some turns; `None` exactly where one may not come.
fn walk(alloc: Global, setup: &Setup, turns: &[Turn]) -> Result<Option<State>, NoMemory>
    ensures { IfOk result (λ r. MatchOption r (AllowsAll setup.now (opening setup.now) turns.now → ⊥)
        (λ state. AllowsAll setup.now (opening setup.now) turns.now × (told state ≡ last_state setup.now turns.now))) }
{
    let mut state = State::opening(alloc, setup)?;
    for turn in turns {
        if !state.allows(alloc, setup, turn)? {
            return Ok(None);
        }
        state.take(alloc, setup, turn)?;
    }
    Ok(Some(state))
}

/// What a state comes to; `None` exactly where it isn't finished.
fn finish(alloc: Global, setup: &Setup, state: State) -> Result<Option<Served>, NoMemory>
    ensures { IfOk result (λ r. MatchOption r ((end : WhichEnd) → IsFinished setup.now (told state) end → ⊥)
        (λ served. IsFinished setup.now (told state) served.end × (served.answers ≡ (told state).answers)
        × (served.holdings ≡ holdings_of (told state)))) }
{
    if !all_served(setup, &state) {
        return Ok(None);
    }
    let State {
        collection,
        map,
        fate,
        answers,
    } = state;
    match fate {
        Fate::Undecided => Ok(None),
        Fate::Asked { .. } => Ok(None),
        Fate::Ended(end) => Ok(Some(Served {
            end,
            answers: Sequence::from_vec(answers),
            holdings: holdings_of(alloc, &map, &collection)?,
        })),
    }
}

/// Whether no client has a command left.
fn all_served(setup: &Setup, state: &State) -> bool
    ensures { Decides result ((client : ℕ) → next_command setup.now (told state.now) client ≡ None) }
{
    for client in 0..setup.clients.len() {
        if state.next_command(setup, client).is_some() {
            return false;
        }
    }
    true
}

/// The documents of each shard.
fn holdings_of(
    alloc: Global,
    chunks: &ChunkMap,
    collection: &Collection,
) -> Result<Holdings, NoMemory>
    ensures { IfOk result (λ holdings. holdings ≡ parts chunks.now collection.now) }
{
    let mut holdings = Vec::with_capacity(alloc, chunks.shards() as usize)?;
    for shard in 0..chunks.shards() {
        holdings.push(part_of(alloc, chunks, collection.entries(), shard)?)?;
    }
    Ok(Sequence::from_vec(holdings))
}

/// The documents that the map gives to a shard.
fn part_of(
    alloc: Global,
    chunks: &ChunkMap,
    entries: &[Entry],
    shard: u32,
) -> Result<Documents, NoMemory>
    ensures { IfOk result (λ part. part ≡ filter (λ d. owner_of chunks.now d == shard)
        (map (λ e. e.document) entries.now)) }
{
    let mut part = Vec::new(alloc);
    for entry in entries {
        if chunks.owner_of(&entry.document).0 != shard {
            continue;
        }
        part.push(entry.document.copy()?)?;
    }
    Ok(Sequence::from_vec(part))
}
