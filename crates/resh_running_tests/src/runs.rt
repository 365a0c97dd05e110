//! Whole runs on one thread: steps and the sweep.

ghost use Rattle.resh_setup.specs.Validity.{IsValid};

use crate::examples::setup_of;
use resh_coord::End;
use resh_core::{Core, Lucks, planned};
use resh_luck::PlannedLuck;
use resh_report::line;
use resh_setup::{Event, SeenList, Setup};
use resh_value::NoMemory;
use std::alloc::Global;
use std::test::Fail;

/// A lane's first commit is refused by a crash, and the sweep makes the rest.
const COMMITS: &str =
    r#""clients":[{"name":"c","commands":[{"update":{"_id":2,"x":2},"with":{"$inc":{"n":1}}},
{"count":{}}]}],"steps":["begin","begin","tell a","tell b","advance","tell a","tell b","client c","clone b a","cut b a",
"apply b a 0"],"plan":[{"who":"b a 0","commit":1,"fate":"crashedBefore"}]"#;

const COMMITTED: &str = "1 begin: preparing to donate
2 begin: idle
3 tell a: prepared
4 tell b: prepared
5 advance: cloning
6 tell a: donating
7 tell b: donating
8 client c: command 1
9 clone b a: got 2, more
10 cut b a: batch 0 to 2
11 apply b a 0: crashed before
11 crash b a: back to place 0
committed, turns 3, replies 2, a 1, b 3";

const ABORTS: &str = r#""clients":[{"name":"c","commands":[{"abort":true}]}]"#;

const ABORTED: &str = "aborted, turns 2, replies 1, a 3, b 1";

fn add_lines(
    text: &mut String,
    alloc: Global,
    setup: &Setup,
    number: u32,
    shown: &SeenList,
) -> Result<(), NoMemory> {
    for row in shown.as_slice() {
        let line = line(alloc, setup, number, &row.0, &row.1)?;
        text.push_str(line.as_str())?;
        text.push_str("\n")?;
    }
    Ok(())
}

/// Makes the steps, and puts their lines behind a text.
fn add_steps(
    text: &mut String,
    alloc: Global,
    setup: &Setup,
    core: &mut Core<'_>,
    lucks: &mut Lucks<PlannedLuck>,
) -> Result<(), NoMemory> {
    let mut number = 0u32;
    for event in setup.steps.as_slice() {
        number = number.wrapping_add(1);
        let shown = core.step(event, lucks)?;
        add_lines(text, alloc, setup, number, &shown)?;
    }
    Ok(())
}

fn end_text(core: &Core<'_>) -> &'static str {
    match core.end() {
        Some(End::Committed) => "committed",
        Some(End::Aborted(_)) => "aborted",
        None => "undecided",
    }
}

/// How many documents a shard holds.
fn held(core: &Core<'_>, shard: u32) -> u64 {
    let mut count = 0u64;
    if let Some(shard) = core.shard(shard) {
        for _ in shard.versions().walk_now(None) {
            count = count.wrapping_add(1);
        }
    }
    count
}

fn reply_count(core: &Core<'_>) -> u64 {
    match core.replies(0) {
        Some(replies) => replies.len(),
        None => 0,
    }
}

/// What a core came to, which is over and has made some events.
fn come_to(alloc: Global, core: &Core<'_>) -> Result<String, Fail> {
    if !core.is_over() || core.trace().is_empty() {
        return Err(Fail::from("it isn't over"));
    }
    let (end, turns, replies) = (end_text(core), core.order().len(), reply_count(core));
    let (a, b) = (held(core, 0), held(core, 1));
    Ok(format!(in alloc; "{end}, turns {turns}, replies {replies}, a {a}, b {b}")?)
}

fn ran(
    alloc: Global,
    setup: &Setup,
    core: &mut Core<'_>,
    lucks: &mut Lucks<PlannedLuck>,
) -> Result<String, Fail> {
    let mut text = String::new(alloc);
    add_steps(&mut text, alloc, setup, core, lucks)?;
    core.finish(lucks)?;
    text.push_str(come_to(alloc, core)?.as_str())?;
    Ok(text)
}

fn run(alloc: Global, setup: &Setup) -> Result<String, Fail>
    requires { IsValid setup.now }
{
    let mut lucks = planned(alloc, setup)?;
    let mut core = Core::start(alloc, setup)?;
    let text = ran(alloc, setup, &mut core, &mut lucks)?;
    let turns = core.order().len();
    let (trace, order) = core.into_parts();
    if trace.is_empty() || order.len() != turns {
        return Err(Fail::from("other turns"));
    }
    Ok(text)
}

fn run_of(alloc: Global, fields: &str) -> Result<String, Fail> {
    let setup = setup_of(alloc, fields)?;
    run(alloc, &setup)
}

#[test]
fn a_core_runs_to_its_end(rt: HostRuntime) -> Result<(), Fail> {
    assert_eq!(rt; run_of(rt.alloc(), COMMITS)?.as_str(), COMMITTED);
    assert_eq!(rt; run_of(rt.alloc(), ABORTS)?.as_str(), ABORTED);
    Ok(())
}
