//! A setup's run on a cluster: the file's steps one by one, each with its lines, and then the sweep.

ghost use Rattle.std.specs.Prelude.{◌≡◌, ◌++◌, ◌+◌, length, is_some, true, Some, IfOk, OnOk};
ghost use Rattle.resh_setup.specs.Validity.{IsValid};
ghost use Rattle.resh_shard.specs.Shards.{documents_of};
ghost use Rattle.resh_core.specs.Cores.{opening_core, tolds};
ghost use Rattle.resh_run.specs.Cluster.{HaveAllStepped, IsGeneratedRun, IsPaged, IsRunOnCluster, IsSummed, StepsOnce};
ghost use Rattle.resh_run.specs.Cluster.{counts_in, holdings_in, lines_at, replies_in};

use resh_coord::End;
use resh_core::{Core, Lucks, planned};
use resh_gen::{generate, summary};
use resh_luck::Luck;
use resh_report::{Lines, line, page_with_lines};
use resh_setup::{Answers, Event, Holdings, SeenList, Setup, Trace, Turns};
use resh_shard::Shard;
use resh_value::{Documents, NoMemory, Sequence};
use std::alloc::Global;

/// A run that came to its end.
#[derive(Debug, Drop)]
pub(crate) struct ClusterRun {
    pub(crate) order: Turns,
    pub(crate) end: End,
    pub(crate) trace: Trace,
    pub(crate) text: Vec<u8>,
}

/// How a run ended, and what is written of it.
#[derive(Debug, Drop)]
pub(crate) struct Written {
    pub(crate) end: End,
    pub(crate) text: Vec<u8>,
}

/// Runs a setup.
pub(crate) fn run_on_cluster(alloc: Global, setup: &Setup) -> Result<ClusterRun, NoMemory>
    requires { IsValid setup.now }
    ensures { IfOk result (IsRunOnCluster setup.now) }
{
    let mut lucks = planned(alloc, setup)?;
    let mut core = Core::start(alloc, setup)?;
    let lines = make_steps(alloc, setup, &mut core, &mut lucks)?;
    core.finish(&mut lucks)?;
    let written = page_of(alloc, setup, &core, &lines)?;
    let (trace, order) = core.into_parts();
    Ok(ClusterRun {
        order,
        end: written.end,
        trace,
        text: written.text,
    })
}

/// Runs the setup of a number by the sweep alone; the text is the summary of the run.
pub(crate) fn run_generated(alloc: Global, number: u32) -> Result<ClusterRun, NoMemory>
    ensures { IfOk result (IsGeneratedRun number) }
{
    let setup = generate(alloc, number)?;
    let mut lucks = planned(alloc, &setup)?;
    let mut core = Core::start(alloc, &setup)?;
    core.finish(&mut lucks)?;
    let written = summary_of(alloc, number, &setup, &core)?;
    let (_, order) = core.into_parts();
    Ok(ClusterRun {
        order,
        end: written.end,
        trace: Sequence::new(alloc),
        text: written.text,
    })
}

/// What is written of a generated setup's run.
fn summary_of(
    alloc: Global,
    number: u32,
    setup: &Setup,
    core: &Core<'_>,
) -> Result<Written, NoMemory>
    requires decided { is_some core.now.cluster.control.decision ≡ true }
    ensures { IfOk result (IsSummed number setup.now core.now) }
{
    let end = end_of(alloc, core)?;
    let replies = replies_in(alloc, core)?;
    let held = counts_in(alloc, core)?;
    let text = summary(alloc, number, setup, &end, &replies, held.as_slice())?;
    Ok(Written { end, text })
}

/// What the coordinator decided, which a core that is over has.
fn end_of(alloc: Global, core: &Core<'_>) -> Result<End, NoMemory>
    requires decided { is_some core.now.cluster.control.decision ≡ true }
    ensures { IfOk result (λ end. core.now.cluster.control.decision ≡ Some end) }
{
    match core.end() {
        Some(end) => end.copy(alloc),
        None => unreachable!(),
    }
}

/// Makes the file's steps, and gives their lines.
fn make_steps<L: Luck>(
    alloc: Global,
    setup: &Setup,
    core: &mut Core<'_>,
    lucks: &mut Lucks<L>,
) -> Result<Lines, NoMemory>
    ensures { IfOk result (λ lines. HaveAllStepped setup.now core.old (tolds L.told lucks.old) lines core.new
        (tolds L.told lucks.new)) }
{
    let mut lines = Sequence::new(alloc);
    let mut number = 0u32;
    for event in setup.steps.as_slice() {
        number = next(number)?;
        make_step(alloc, setup, number, event, core, lucks, &mut lines)?;
    }
    Ok(lines)
}

fn next(number: u32) -> Result<u32, NoMemory>
    ensures { IfOk result (λ n. n ≡ number + 1) }
{
    match number.checked_add(1) {
        Some(next) => Ok(next),
        None => Err(NoMemory),
    }
}

/// Makes a step, and adds its lines.
fn make_step<L: Luck>(
    alloc: Global,
    setup: &Setup,
    number: u32,
    event: &Event,
    core: &mut Core<'_>,
    lucks: &mut Lucks<L>,
    lines: &mut Lines,
) -> Result<(), NoMemory>
    ensures { OnOk result (StepsOnce setup.now number event.now core.old (tolds L.told lucks.old) lines.old core.new
        (tolds L.told lucks.new) lines.new) }
{
    let shown = core.step(event, lucks)?;
    push_lines(alloc, setup, number, &shown, lines)
}

/// Adds the lines of one step.
fn push_lines(
    alloc: Global,
    setup: &Setup,
    number: u32,
    shown: &SeenList,
    lines: &mut Lines,
) -> Result<(), NoMemory>
    ensures { OnOk result (lines.new ≡ lines.old ++ lines_at setup.now number shown.now) }
{
    for row in shown.as_slice() {
        let words = line(alloc, setup, number, &row.0, &row.1)?;
        match lines.push(words) {
            Ok(()) => {}
            Err(_) => return Err(NoMemory),
        }
    }
    Ok(())
}

/// The page of a run, with its steps' lines.
fn page_of(
    alloc: Global,
    setup: &Setup,
    core: &Core<'_>,
    lines: &Lines,
) -> Result<Written, NoMemory>
    requires decided { is_some core.now.cluster.control.decision ≡ true }
    ensures { IfOk result (IsPaged setup.now lines.now core.now) }
{
    let end = end_of(alloc, core)?;
    let replies = replies_in(alloc, core)?;
    let holdings = holdings_in(alloc, core)?;
    let order = core.order();
    let text = page_with_lines(alloc, setup, order, &end, &replies, &holdings, lines)?;
    Ok(Written { end, text })
}

/// What each client was answered.
fn replies_in(alloc: Global, core: &Core<'_>) -> Result<Answers, NoMemory>
    ensures { IfOk result (λ replies. replies ≡ replies_in core.now.cluster) }
{
    let mut answers = Vec::new(alloc);
    for client in 0..u32::MAX {
        match core.replies(client) {
            Some(replies) => {
                let copied = replies.copy()?;
                answers.push(copied)?;
            }
            None => return Ok(Sequence::from_vec(answers)),
        }
    }
    Err(NoMemory)
}

/// What each shard holds.
fn holdings_in(alloc: Global, core: &Core<'_>) -> Result<Holdings, NoMemory>
    ensures { IfOk result (λ holdings. holdings ≡ holdings_in core.now.cluster) }
{
    let mut holdings = Vec::new(alloc);
    for place in 0..u32::MAX {
        match core.shard(place) {
            Some(shard) => {
                let held = held(alloc, shard)?;
                holdings.push(held)?;
            }
            None => return Ok(Sequence::from_vec(holdings)),
        }
    }
    Err(NoMemory)
}

/// Copies of the documents of a shard.
fn held(alloc: Global, shard: &Shard) -> Result<Documents, NoMemory>
    ensures { IfOk result (λ held. held ≡ documents_of shard.now) }
{
    let mut held = Vec::new(alloc);
    for document in shard.versions().walk_now(None) {
        held.push(document.copy()?)?;
    }
    Ok(Sequence::from_vec(held))
}

/// How many documents each shard holds.
fn counts_in(alloc: Global, core: &Core<'_>) -> Result<Vec<u64>, NoMemory>
    ensures { IfOk result (λ counts. counts.items ≡ counts_in core.now.cluster) }
{
    let mut counts = Vec::new(alloc);
    for place in 0..u32::MAX {
        match core.shard(place) {
            Some(shard) => {
                let count = count_of(shard)?;
                counts.push(count)?;
            }
            None => return Ok(counts),
        }
    }
    Err(NoMemory)
}

/// How many documents a shard holds.
fn count_of(shard: &Shard) -> Result<u64, NoMemory>
    ensures { IfOk result (λ count. count ≡ length (documents_of shard.now)) }
{
    let mut count = 0u64;
    for _ in shard.versions().walk_now(None) {
        count = one_more(count)?;
    }
    Ok(count)
}

fn one_more(count: u64) -> Result<u64, NoMemory>
    ensures { IfOk result (λ more. more ≡ count + 1) }
{
    match count.checked_add(1) {
        Some(more) => Ok(more),
        None => Err(NoMemory),
    }
}
