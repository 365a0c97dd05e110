//! The lines of steps: for some files' steps what each showed, and its line without the number.

use resh_config::read_setup;
use resh_coord::{Cause, Node, Why};
use resh_report::line;
use resh_setup::WriteKind::{Delete, Insert, Update};
use resh_setup::{Event, Seen, Setup, WriteKind};
use resh_value::{ShardId, Value};
use std::alloc::Global;
use std::test::Fail;

const HEAD: &str = r#"{"version":1,"shards":["a","b","c"],"oldKey":["x"],"newKey":["y"],
    "oldChunks":[{"min":"MinKey","max":"MaxKey","shard":"a"}],
    "newChunks":[{"min":"MinKey","max":"MaxKey","shard":"b"}],
    "documents":[],"clients":[{"name":"c1","commands":[]}],"lanes":1,"steps":"#;

const COPIED: &str =
    r#"["begin","tell a","tell b","advance","tell a","tell b","clone a a","cut a a",
    "apply a a 0","clone a b","cut a b","apply a b 0","record a a","record a b","client c1","fetch a a","cut a a",
    "apply a a 0"]"#;

const APPLIED: &str =
    r#"["apply a c 0","apply b b 0","apply a a 0","again a a 0 3","again a a 0 1","apply a a 0",
    "clone b a","clone b c","fetch a a","fetch a b","crash a a","record a b","report a","report b","report a",
    "report b"]"#;

const TOLD: &str =
    r#"["advance","advance","advance","advance","advance","tell a","tell b","tell c","client c1",
    "client c1","retell a prepare","retell b donate","retell c block","retell a install","retell b release",
    "begin","advance","clone c b","cut b b","begin"]"#;

fn applied(write: WriteKind, rule: u8, place: u64, stash: u64) -> Seen {
    Seen::Applied {
        write,
        rule,
        place,
        stash,
    }
}

fn took(donor: u32, place: u64, stash: u64) -> Seen {
    Seen::Took {
        write: Delete,
        donor: ShardId(donor),
        place,
        stash,
    }
}

fn fails(node: Node, cause: Why, late: bool) -> Seen {
    Seen::Fails { node, cause, late }
}

fn out_of_memory(recipient: u32, late: bool) -> Seen {
    Seen::FailsForMemory {
        recipient: ShardId(recipient),
        late,
    }
}

fn copied() -> [(Seen, &'static str); 18] {
    [
        (Seen::PreparingToDonate, "begin: preparing to donate"),
        (Seen::Prepared, "tell a: prepared"),
        (Seen::Prepared, "tell b: prepared"),
        (Seen::Cloning, "advance: cloning"),
        (Seen::Donating, "tell a: donating"),
        (Seen::Donating, "tell b: donating"),
        (Seen::GotEnd { count: 1 }, "clone a a: got 1, end"),
        (Seen::Batch { from: 0, to: 1 }, "cut a a: batch 0 to 1"),
        (
            applied(Insert, 2, 0, 0),
            "apply a a 0: insert rule 2, place 0, stash 0",
        ),
        (Seen::GotEnd { count: 1 }, "clone a b: got 1, end"),
        (Seen::Batch { from: 0, to: 1 }, "cut a b: batch 0 to 1"),
        (
            applied(Insert, 4, 0, 1),
            "apply a b 0: insert rule 4, place 0, stash 1",
        ),
        (Seen::Kept { place: 1 }, "record a a: place 1"),
        (Seen::Kept { place: 1 }, "record a b: place 1"),
        (Seen::Command { number: 1 }, "client c1: command 1"),
        (Seen::Got { count: 1 }, "fetch a a: got 1"),
        (Seen::Batch { from: 1, to: 2 }, "cut a a: batch 1 to 2"),
        (
            took(1, 1, 0),
            "apply a a 0: delete rule 4 took b, place 1, stash 0",
        ),
    ]
}

fn lanes() -> [(Seen, &'static str); 16] {
    [
        (
            applied(Insert, 4, 0, 2),
            "apply a c 0: insert rule 4, place 0, stash 2",
        ),
        (
            took(2, 1, 0),
            "apply b b 0: delete rule 4 took c, place 1, stash 0",
        ),
        (
            applied(Update, 3, 12, 0),
            "apply a a 0: update rule 3, place 12, stash 0",
        ),
        (Seen::Ahead { at: 2 }, "again a a 0 3: ahead, at 2"),
        (Seen::Repeated { at: 2 }, "again a a 0 1: repeated, at 2"),
        (
            applied(Insert, 1, 3, 1),
            "apply a a 0: insert rule 1, place 3, stash 1",
        ),
        (Seen::GotEnd { count: 0 }, "clone b a: got 0, end"),
        (Seen::GotMore { count: 500 }, "clone b c: got 500, more"),
        (Seen::GotNothing, "fetch a a: nothing"),
        (Seen::GotFinal { count: 2 }, "fetch a b: got 2, final"),
        (Seen::Back { place: 1 }, "crash a a: back to place 1"),
        (
            Seen::KeptLast { place: 12 },
            "record a b: place 12, finished",
        ),
        (Seen::Cloned, "report a: cloned"),
        (Seen::Near, "report b: near"),
        (Seen::Consistent, "report a: consistent"),
        (Seen::Clash { id: Value::Int(-1) }, "report b: clash -1"),
    ]
}

fn told() -> [(Seen, &'static str); 20] {
    [
        (Seen::Applying, "advance: applying"),
        (Seen::BlockingWrites, "advance: blocking writes"),
        (Seen::Committing, "advance: committing"),
        (Seen::Aborting, "advance: aborting"),
        (Seen::Done, "advance: done"),
        (Seen::Blocked, "tell a: blocked"),
        (Seen::Installed { documents: 10 }, "tell b: installed 10"),
        (Seen::Released, "tell c: released"),
        (Seen::Blocked, "client c1: blocked"),
        (Seen::Refreshed, "client c1: refreshed"),
        (Seen::NothingNew, "retell a prepare: nothing new"),
        (Seen::NothingNew, "retell b donate: nothing new"),
        (Seen::NothingNew, "retell c block: nothing new"),
        (Seen::NothingNew, "retell a install: nothing new"),
        (Seen::NothingNew, "retell b release: nothing new"),
        (Seen::CrashedBefore, "begin: crashed before"),
        (Seen::Failed, "advance: failed"),
        (Seen::Lost, "clone c b: lost 64 times"),
        (Seen::NoMemory, "cut b b: no memory"),
        (Seen::Idle, "begin: idle"),
    ]
}

fn failures() -> [(Seen, &'static str); 5] {
    [
        (
            fails(Node::Shard(ShardId(0)), Why::Link, false),
            "fail a link",
        ),
        (
            fails(Node::Shard(ShardId(1)), Why::Commit, false),
            "fail b commit",
        ),
        (
            fails(Node::Coordinator, Why::Crashes, true),
            "fail coordinator crashes: too late",
        ),
        (out_of_memory(2, false), "fail c no memory"),
        (out_of_memory(0, true), "fail a no memory: too late"),
    ]
}

fn setup_of(alloc: Global, steps: &str) -> Result<Setup, Fail> {
    let file = format!(in alloc; "{HEAD}{steps}}}")?;
    let setup = read_setup(alloc, file.as_bytes()).ok().ok_or("a setup")?;
    Ok(setup)
}

/// Whether the steps, numbered from 1, have these lines, one for each.
fn are_lines(alloc: Global, steps: &str, rows: &[(Seen, &str)]) -> Result<bool, Fail> {
    let setup = setup_of(alloc, steps)?;
    let mut number = 0u32;
    for (event, (seen, text)) in setup.steps.as_slice().iter().zip(rows) {
        number = number.saturating_add(1);
        let want = format!(in alloc; "{number} {text}")?;
        if !line(alloc, &setup, number, event, seen)?.is(want.as_str()) {
            return Ok(false);
        }
    }
    Ok(rows.len() == setup.steps.as_slice().len())
}

/// The failure that is seen so, of a link where a shard fails.
fn failure_of(seen: &Seen) -> Event {
    match *seen {
        Seen::Fails { node, cause, .. } => Event::Fail {
            link: link_of(node),
            cause: Cause::Failed { node, cause },
        },
        _ => Event::Fail {
            link: Some((ShardId(0), ShardId(1))),
            cause: Cause::NoMemory,
        },
    }
}

fn link_of(node: Node) -> Option<(ShardId, ShardId)> {
    match node {
        Node::Coordinator => None,
        Node::Shard(recipient) => Some((recipient, ShardId(1))),
    }
}

/// Whether failures that follow the seventh step have these lines.
fn are_failures(alloc: Global, rows: &[(Seen, &str)]) -> Result<bool, Fail> {
    let setup = setup_of(alloc, COPIED)?;
    for (seen, text) in rows {
        let want = format!(in alloc; "7 {text}")?;
        if !line(alloc, &setup, 7, &failure_of(seen), seen)?.is(want.as_str()) {
            return Ok(false);
        }
    }
    Ok(true)
}

#[test]
fn each_event_has_its_line(rt: HostRuntime) -> Result<(), Fail> {
    let alloc = rt.alloc();
    assert!(rt; are_lines(alloc, COPIED, &copied())?);
    assert!(rt; are_lines(alloc, APPLIED, &lanes())?);
    assert!(rt; are_lines(alloc, TOLD, &told())?);
    assert!(rt; are_failures(alloc, &failures())?);
    Ok(())
}
