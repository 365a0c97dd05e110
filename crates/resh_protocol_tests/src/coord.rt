use resh_coord::{Asked, Cause, Coordinator, End, Node, Phase, Why, coordinator_laws};
use resh_progress::Message;
use resh_value::{Copied, ShardId, Value, Words};
use std::alloc::Global;
use std::test::Fail;

/// A copy of a clash on this name, and copies of this end and of a commit.
fn copies(alloc: Global, name: &str, end: &End) -> Result<String, Fail> {
    let clash = Cause::Clash {
        shard: ShardId(3),
        id: Value::Text(Words::of(alloc, name)?),
    };
    let clash = clash.copied(alloc)?;
    let end = end.copy(alloc)?;
    let committed = End::Committed.copy(alloc)?;
    Ok(format!(in alloc; "{clash:?}, {end:?}, {committed:?}")?)
}

const COPIES: &str = "Clash { shard: ShardId(3), id: Text(Words { text: \"ann\" }) }, \
    Aborted(Asked { client: 2, number: 7 }), Committed";

#[test]
fn causes_and_ends_are_copied(rt: HostRuntime) -> Result<(), Fail> {
    let asked = End::Aborted(Cause::Asked {
        client: 2,
        number: 7,
    });
    assert_eq!(rt; copies(rt.alloc(), "ann", &asked)?.as_str(), COPIES);
    Ok(())
}

/// What is asked of a coordinator of two shards, and what it answers.
#[derive(Clone, Copy)]
enum Act {
    Begin(bool),
    /// At this time it goes on to this phase, or stays.
    Advance(u64, Option<Phase>),
    In(Phase),
    Says(Option<Message>),
    /// Each shard may be told, and is.
    TellAll,
    IsTold(ShardId, bool),
    /// A shard reports once, with the number that is a clash or with none.
    Report(ShardId, Option<i64>),
    IsReported(ShardId, bool),
    Crash(u32),
    /// The command of this number of this client asks for an abort.
    Abort(u32, u32, Asked),
    /// It crashes 64 times.
    Fail(bool),
    /// What was decided.
    Decided(&'static str),
}

const A: ShardId = ShardId(0);

const B: ShardId = ShardId(1);

/// All were told that writes are blocked.
const BLOCKING: [Act; 27] = [
    Act::Begin(true),
    Act::Begin(false),
    Act::Advance(6, None),
    Act::TellAll,
    Act::Advance(7, Some(Phase::Cloning)),
    Act::Says(Some(Message::Donate { fetch_time: 7 })),
    Act::IsTold(A, false),
    Act::TellAll,
    Act::Advance(8, None),
    Act::Report(A, None),
    Act::IsReported(A, true),
    Act::Advance(8, None),
    Act::Report(B, None),
    Act::IsReported(B, true),
    Act::Advance(8, Some(Phase::Applying)),
    Act::IsReported(B, false),
    Act::Advance(8, None),
    Act::Report(A, None),
    Act::IsReported(A, true),
    Act::Advance(8, None),
    Act::Report(B, None),
    Act::IsReported(B, true),
    Act::Advance(8, Some(Phase::BlockingWrites)),
    Act::IsReported(B, false),
    Act::IsTold(A, false),
    Act::TellAll,
    Act::IsTold(A, true),
];

const COMMITS: [Act; 11] = [
    Act::Report(A, None),
    Act::Report(B, None),
    Act::Decided("None"),
    Act::Advance(9, Some(Phase::Committing)),
    Act::Decided("Some(Committed)"),
    Act::Abort(1, 1, Asked::TooLate),
    Act::Says(Some(Message::Install)),
    Act::TellAll,
    Act::Advance(10, Some(Phase::Done)),
    Act::Says(None),
    Act::Advance(11, None),
];

const CLASHES: [Act; 5] = [
    Act::Report(B, Some(2)),
    Act::Report(A, Some(5)),
    Act::Advance(9, Some(Phase::Aborting)),
    Act::Decided("Some(Aborted(Clash { shard: ShardId(0), id: Int(5) }))"),
    Act::Says(Some(Message::Release)),
];

const ASKS: [Act; 5] = [
    Act::Crash(1),
    Act::Abort(3, 2, Asked::Accepted),
    Act::In(Phase::Aborting),
    Act::Fail(false),
    Act::Decided("Some(Aborted(Asked { client: 3, number: 2 }))"),
];

fn tell_all(coordinator: &mut Coordinator) -> bool {
    for shard in [A, B] {
        if !coordinator.may_tell(shard) {
            return false;
        }
        coordinator.told(shard);
    }
    true
}

/// Whether the shard may report, and then may no more.
fn reports(coordinator: &mut Coordinator, shard: ShardId, clash: Option<i64>) -> bool {
    if !coordinator.may_report(shard) {
        return false;
    }
    match clash {
        None => coordinator.reported(shard, None),
        Some(number) => match coordinator.phase() {
            Phase::BlockingWrites => coordinator.reported(shard, Some(Value::Int(number))),
            _ => return false,
        },
    }
    !coordinator.may_report(shard)
}

fn is_decided(alloc: Global, coordinator: &Coordinator, text: &str) -> Result<bool, Fail> {
    let decision = format!(in alloc; "{:?}", coordinator.decision())?;
    Ok(decision.as_str() == text)
}

fn fails(coordinator: &mut Coordinator) -> bool {
    coordinator.fail(Cause::Failed {
        node: Node::Coordinator,
        cause: Why::Crashes,
    })
}

fn is_so(alloc: Global, coordinator: &mut Coordinator, act: Act) -> Result<bool, Fail> {
    match act {
        Act::Begin(begins) => Ok(coordinator.begin() == begins),
        Act::Advance(time, phase) => Ok(coordinator.advance(time) == phase),
        Act::In(phase) => Ok(coordinator.phase() == phase),
        Act::Says(message) => Ok(coordinator.message() == message),
        Act::TellAll => Ok(tell_all(coordinator)),
        Act::IsTold(shard, told) => Ok(coordinator.is_told(shard) == told),
        Act::Report(shard, clash) => Ok(reports(coordinator, shard, clash)),
        Act::IsReported(shard, reported) => Ok(coordinator.is_reported(shard) == reported),
        Act::Crash(crashes) => Ok(coordinator.crashed() == crashes),
        Act::Abort(client, number, asked) => Ok(coordinator.abort(client, number) == asked),
        Act::Fail(fails_now) => Ok(fails(coordinator) == fails_now),
        Act::Decided(text) => is_decided(alloc, coordinator, text),
    }
}

/// The first place at which the coordinator answers otherwise.
fn wrong_act(
    alloc: Global,
    coordinator: &mut Coordinator,
    acts: &[Act],
) -> Result<Option<usize>, Fail> {
    for (place, act) in acts.iter().enumerate() {
        if !is_so(alloc, coordinator, *act)? {
            return Ok(Some(place));
        }
    }
    Ok(None)
}

/// The first wrong answer of a new coordinator to some acts, and to those behind them.
fn wrong(alloc: Global, acts: &[Act], behind: &[Act]) -> Result<[Option<usize>; 2], Fail> {
    let mut coordinator = Coordinator::new(alloc, 2)?;
    let wrong = wrong_act(alloc, &mut coordinator, acts)?;
    Ok([wrong, wrong_act(alloc, &mut coordinator, behind)?])
}

#[test]
fn a_coordinator_commits_where_no_clash_is_reported(rt: HostRuntime) -> Result<(), Fail> {
    coordinator_laws();
    assert_eq!(rt; wrong(rt.alloc(), &BLOCKING, &COMMITS)?, [None, None]);
    Ok(())
}

#[test]
fn the_clash_of_the_least_shard_refuses(rt: HostRuntime) -> Result<(), Fail> {
    assert_eq!(rt; wrong(rt.alloc(), &BLOCKING, &CLASHES)?, [None, None]);
    Ok(())
}

#[test]
fn the_first_cause_stands(rt: HostRuntime) -> Result<(), Fail> {
    assert_eq!(rt; wrong(rt.alloc(), &[], &ASKS)?, [None, None]);
    Ok(())
}
