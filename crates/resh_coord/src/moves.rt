//! What is made of a coordinator's state.

ghost use Rattle.std.specs.Prelude.{◌≡◌, ◌<◌, ◌≤◌, true, false, length, replicate, slice_index_or, slice_set, None, IfOk};
ghost use Rattle.resh_coord.specs.Control.{all_true, decided, decided_by_clashes, first_clash, is_true_at, with_phase, with_report, with_told};

use crate::cause::{Cause, End};
use crate::phase::Phase;
use crate::state::{Clashes, ControlState, Marks};
use resh_value::{NoMemory, Sequence, ShardId, Value};
use std::alloc::Global;
use std::mem;

pub(crate) fn falses(alloc: Global, shards: u32) -> Result<Marks, NoMemory>
    ensures { IfOk result (λ marks. marks ≡ replicate shards false) }
{
    let mut marks = Vec::new(alloc);
    for _ in 0..shards {
        marks.push(false)?;
    }
    Ok(Sequence::from_vec(marks))
}

pub(crate) fn nones(alloc: Global, shards: u32) -> Result<Clashes, NoMemory>
    ensures { IfOk result (λ clashes. clashes ≡ replicate shards None) }
{
    let mut clashes = Vec::new(alloc);
    for _ in 0..shards {
        clashes.push(None)?;
    }
    Ok(Sequence::from_vec(clashes))
}

pub(crate) fn is_marked(marks: &Marks, shard: ShardId) -> bool
    ensures { result ≡ is_true_at marks.now shard.0 }
{
    match marks.as_slice().get(shard.0 as usize) {
        Some(mark) => *mark,
        None => false,
    }
}

pub(crate) fn all_true(marks: &Marks) -> bool
    ensures { result ≡ all_true marks.now }
{
    marks.as_slice().iter().all(|mark| *mark)
}

/// A new phase, in which nobody was told and nobody reported.
pub(crate) fn enter(state: &mut ControlState, alloc: Global, phase: Phase)
    ensures { state.new ≡ with_phase phase state.old }
{
    state.phase = phase;
    let told = mem::replace(&mut state.told, Sequence::new(alloc));
    state.told = cleared(told);
    let reported = mem::replace(&mut state.reported, Sequence::new(alloc));
    state.reported = cleared(reported);
}

fn cleared(marks: Marks) -> Marks
    ensures { result ≡ replicate (length marks) false }
{
    let mut marks = marks.into_vec();
    marks.fill(false);
    Sequence::from_vec(marks)
}

pub(crate) fn tell(state: &mut ControlState, alloc: Global, shard: ShardId)
    requires { shard.0 < length state.old.told }
    ensures { state.new ≡ with_told shard.0 state.old }
{
    let told = mem::replace(&mut state.told, Sequence::new(alloc));
    state.told = marked(told, shard.0 as usize);
}

pub(crate) fn report(
    state: &mut ControlState,
    alloc: Global,
    recipient: ShardId,
    clash: Option<Value>,
)
    requires reported { recipient.0 < length state.old.reported }
    requires clashes { recipient.0 < length state.old.clashes }
    ensures { state.new ≡ with_report recipient.0 clash state.old }
{
    let reported = mem::replace(&mut state.reported, Sequence::new(alloc));
    state.reported = marked(reported, recipient.0 as usize);
    let clashes = mem::replace(&mut state.clashes, Sequence::new(alloc));
    let mut clashes = clashes.into_vec();
    clashes[recipient.0 as usize] = clash;
    state.clashes = Sequence::from_vec(clashes);
}

fn marked(marks: Marks, place: usize) -> Marks
    requires { place < length marks }
    ensures { result ≡ slice_set marks place true }
{
    let mut marks = marks.into_vec();
    marks[place] = true;
    Sequence::from_vec(marks)
}

pub(crate) fn decide(state: &mut ControlState, alloc: Global, end: End, phase: Phase)
    ensures { state.new ≡ decided end phase state.old }
{
    enter(state, alloc, phase);
    state.decision = Some(end);
}

/// The clash of the first shard that reported one refuses; where none did, the operation commits.
pub(crate) fn decide_by_clashes(state: &mut ControlState, alloc: Global)
    requires { length state.old.clashes < 4294967296 }
    ensures { state.new ≡ decided_by_clashes state.old }
{
    let clashes = mem::replace(&mut state.clashes, Sequence::new(alloc));
    let shard = first_clash(clashes.as_slice());
    let (id, clashes) = taken(clashes, shard);
    state.clashes = clashes;
    match id {
        Some(id) => {
            let shard = ShardId(shard as u32);
            let cause = Cause::Clash { shard, id };
            decide(state, alloc, End::Aborted(cause), Phase::Aborting);
        }
        None => decide(state, alloc, End::Committed, Phase::Committing),
    }
}

fn first_clash(clashes: &[Option<Value>]) -> usize
    ensures first { result ≡ first_clash clashes.now }
    ensures within { result ≤ length clashes.now }
{
    match clashes.iter().position(|clash| clash.is_some()) {
        Some(place) => place,
        None => clashes.len(),
    }
}

/// What stands at a place, and the list without it.
fn taken(clashes: Clashes, place: usize) -> (Option<Value>, Clashes)
    ensures id { result.0 ≡ slice_index_or clashes place None }
    ensures rest { result.1 ≡ slice_set clashes place None }
{
    let mut clashes = clashes.into_vec();
    if place < clashes.len() {
        let id = mem::replace(&mut clashes[place], None);
        return (id, Sequence::from_vec(clashes));
    }
    (None, Sequence::from_vec(clashes))
}
