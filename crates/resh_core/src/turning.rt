//! The turns that an event makes.

ghost use Rattle.std.specs.Prelude.{◌≡◌, ◌∷◌, ◌++◌, [], OnOk};
ghost use Rattle.std.specs.Option.{option_copied};
ghost use Rattle.resh_core.specs.Making.{mark_by, turn_shown, turns_shown};

use resh_coord::End;
use resh_setup::{Event, Met, Seen, Turn, Turns};
use resh_value::NoMemory;
use std::alloc::Global;

/// Adds the turn of a client's command, by what it met and showed.
pub(crate) fn add_turn(
    order: &mut Turns,
    event: &Event,
    met: Met,
    seen: &Seen,
) -> Result<(), NoMemory>
    ensures { OnOk result (order.new ≡ order.old ++ turns_shown event.now met seen.now) }
{
    match event {
        Event::Client { client } => add_command(order, *client, met, seen),
        _ => Ok(()),
    }
}

fn add_command(order: &mut Turns, client: u32, met: Met, seen: &Seen) -> Result<(), NoMemory>
    ensures { OnOk result (order.new ≡ order.old ++ turn_shown client met seen.now) }
{
    match met {
        Met::Row => match seen {
            Seen::Command { .. } => add(
                order,
                Turn::Command {
                    client,
                    refused: false,
                },
            ),
            _ => Ok(()),
        },
        Met::NoMemory | Met::NoMemoryInMove => add(
            order,
            Turn::Command {
                client,
                refused: true,
            },
        ),
        _ => Ok(()),
    }
}

/// Adds the mark, where it was decided just now.
pub(crate) fn add_mark(
    order: &mut Turns,
    alloc: Global,
    was_decided: bool,
    end: Option<&End>,
) -> Result<(), NoMemory>
    ensures { OnOk result (order.new ≡ order.old ++ mark_by was_decided (option_copied end.entry)) }
{
    if was_decided {
        return Ok(());
    }
    match end {
        None => Ok(()),
        Some(End::Committed) => add(order, Turn::Switch),
        Some(End::Aborted(cause)) => {
            let cause = cause.copy(alloc)?;
            add(order, Turn::Drop(cause))
        }
    }
}

fn add(order: &mut Turns, turn: Turn) -> Result<(), NoMemory>
    ensures { OnOk result (order.new ≡ order.old ++ turn ∷ []) }
{
    match order.push(turn) {
        Ok(()) => Ok(()),
        Err(_) => Err(NoMemory),
    }
}
