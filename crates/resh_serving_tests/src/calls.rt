//! What a shard does beside commands: it is cloned, it blocks writes, is released and forgets old versions.

use crate::cluster::{is_next, may_ask, opened};
use crate::sequences::{next_command, setup_of};
use resh_cloner::next_batch;
use resh_setup::Setup;
use resh_shard::{Act, Command, Shard, Which};
use resh_stamp::Stamp;
use resh_value::{ShardId, Words};
use std::alloc::Global;
use std::test::Fail;

const COMMANDS: &str = r#"{"delete":{"_id":11,"x":2}},{"insert":{"_id":13,"x":5,"y":5}}"#;

/// The texts of the next documents of a clone at time 0 for the second shard, and whether they are the last.
fn cloned(alloc: Global, shard: &Shard, most: u32) -> Result<(Words, bool), Fail> {
    if shard.versions().floor() > 0 {
        return Err(Fail::from("what stood at the fetch time is gone"));
    }
    let cloned = next_batch(alloc, shard, 0, ShardId(1), None, most)?;
    match cloned.documents.get(0) {
        Some(document) if cloned.documents.len() == 1 => Ok((document.text(alloc)?, cloned.end)),
        _ => Err(Fail::from("not one document")),
    }
}

fn asked(shard: &mut Shard, command: &Command, time: u64) -> Result<Act, Fail> {
    let stamp = Stamp { time, node: 0 };
    if may_ask(shard, command) && is_next(shard, stamp) {
        return Ok(shard.act(command, stamp));
    }
    Err(Fail::from("not to be asked"))
}

fn block(shard: &mut Shard, time: u64) -> Result<(), Fail> {
    let stamp = Stamp { time, node: 0 };
    if is_next(shard, stamp) {
        return Ok(shard.block(stamp)?);
    }
    Err(Fail::from("not a later time"))
}

fn is_blocked(act: Act) -> bool {
    match act {
        Act::Blocked => true,
        _ => false,
    }
}

fn expect(is: bool, what: &str) -> Result<(), Fail> {
    if is {
        return Ok(());
    }
    Err(Fail::from(what))
}

/// A document that is deleted after the fetch time is cloned all the same.
fn is_cloned(alloc: Global, shard: &mut Shard, delete: &Command) -> Result<(), Fail> {
    shard.prepare();
    expect(!is_blocked(asked(shard, delete, 1)?), "a delete")?;
    let (text, end) = cloned(alloc, shard, 2)?;
    expect(
        end && text.is(r#"{"_id":11,"x":2,"y":11}"#),
        "the whole clone",
    )?;
    expect(!cloned(alloc, shard, 1)?.1, "a clone that may go on")
}

/// Blocking logs a final entry for each of three shards.
fn is_held_up(shard: &mut Shard, insert: &Command) -> Result<(), Fail> {
    block(shard, 2)?;
    expect(shard.blocked() && shard.log().len() == 4, "final entries")?;
    expect(is_blocked(asked(shard, insert, 3)?), "a blocked shard")
}

fn goes_on(shard: &mut Shard, insert: &Command) -> Result<(), Fail> {
    shard.release();
    expect(shard.which() == Which::Old, "the old map")?;
    expect(!is_blocked(asked(shard, insert, 3)?), "an insert")?;
    shard.prune(2);
    expect(shard.versions().floor() == 2, "a floor")
}

fn walks_on(alloc: Global, shard: &mut Shard, setup: &Setup) -> Result<(), Fail> {
    is_cloned(alloc, shard, next_command(setup, 0)?)?;
    is_held_up(shard, next_command(setup, 1)?)?;
    goes_on(shard, next_command(setup, 1)?)
}

fn walks_over(alloc: Global, setup: &Setup) -> Result<(), Fail> {
    let mut shard = opened(alloc, setup)?.into_first()?;
    walks_on(alloc, &mut shard, setup)
}

#[test]
fn a_shard_is_cloned_blocked_and_released(rt: HostRuntime) -> Result<(), Fail> {
    let setup = setup_of(rt.alloc(), "many", COMMANDS)?;
    walks_over(rt.alloc(), &setup)
}
