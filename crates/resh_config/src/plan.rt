//! The rows of a plan.

ghost use Rattle.std.specs.Prelude.{◌≡◌, ◌∷◌, map};
ghost use Rattle.serde_json.specs.View.{view, members_view};
ghost use Rattle.resh_value.specs.Outcome.{Gives};
ghost use Rattle.resh_config.specs.Plan.{recipient_named, link_who, lane_who, who_after, who_of, coordinator_of, who_with, who_in, commit_fate, delivery_fate, fate_named, fate_in, kind_name, kind_of, has_both_kinds, numbers_of, planned_of, planned_in, plan_in};

use crate::faults::{Fault, unknown_here, wrong_kind};
use crate::lists::{ItemReader, list_in};
use crate::names::is_same;
use crate::walk::{FieldReader, NumberIn, member, optional, required, row_with, text_in};
use crate::words::{Known, words_of};
use resh_luck::{Kind, PlanFate, PlanRow};
use resh_setup::{Plan, Planned, Who};
use resh_value::{ShardId, WalkFault};
use serde_json::{Map, Value as Json};
use std::alloc::{AllocError, Global};

/// So many rows a plan may have.
const MOST_ROWS: u64 = 1_000;
/// The greatest number of a commit or a delivery.
const LAST_NUMBER: u32 = 100_000;

/// Reads the plan.
#[derive(Drop)]
pub(crate) struct PlanRows<'a> {
    pub(crate) known: &'a Known<'a>,
}

impl FieldReader for PlanRows<'_> {
    type Content = Plan;

    ghost reads = { λ p. plan_in p.known.now.shards.now p.known.now.lanes };

    fn read(self, alloc: Global, json: &Json) -> Result<Plan, Fault> {
        list_in(alloc, &mut RowReader { known: self.known }, MOST_ROWS, json)
    }
}

#[derive(Drop)]
struct RowReader<'a> {
    known: &'a Known<'a>,
}

impl ItemReader for RowReader<'_> {
    type Item = Planned;

    ghost reads = { λ r. planned_in r.known.now.shards.now r.known.now.lanes };

    fn read(&mut self, alloc: Global, _before: &[Planned], json: &Json) -> Result<Planned, Fault> {
        let members = row_with(
            alloc,
            json,
            &["who", "commit", "deliver", "through", "fate"],
        )?;
        if has_both_kinds(members) {
            return Err(wrong_kind(alloc));
        }
        planned_of(alloc, self.known, members)
    }
}

fn has_both_kinds(members: &Map<String, Json>) -> bool
    ensures { result ≡ has_both_kinds (members_view members.now.entries) }
{
    member(members, "commit").is_some() && member(members, "deliver").is_some()
}

fn planned_of(alloc: Global, known: &Known, members: &Map<String, Json>) -> Result<Planned, Fault>
    ensures { Gives WalkFault.NoMemory result
        (planned_of known.now.shards.now known.now.lanes (members_view members.now.entries)) }
{
    let who = required(alloc, members, "who", WhoReader { known })?;
    numbers_of(alloc, who, kind_of(members), members)
}

/// The kind of a row that doesn't name both.
fn kind_of(members: &Map<String, Json>) -> Kind
    ensures { result ≡ kind_of (members_view members.now.entries) }
{
    if member(members, "deliver").is_some() {
        Kind::Deliver
    } else {
        Kind::Commit
    }
}

/// The field that has a row's first number.
fn kind_name(kind: Kind) -> &'static str
    ensures { result.now ≡ kind_name kind }
{
    match kind {
        Kind::Commit => "commit",
        Kind::Deliver => "deliver",
    }
}

fn numbers_of(
    alloc: Global,
    who: Who,
    kind: Kind,
    members: &Map<String, Json>,
) -> Result<Planned, Fault>
    ensures { Gives WalkFault.NoMemory result (numbers_of who kind (members_view members.now.entries)) }
{
    let numbers = NumberIn {
        low: 1,
        high: LAST_NUMBER,
    };
    let first = required(alloc, members, kind_name(kind), numbers)?;
    let later = NumberIn {
        low: first,
        high: LAST_NUMBER,
    };
    let last = optional(alloc, members, "through", later, first)?;
    let fate = required(alloc, members, "fate", FateReader { kind })?;
    let row = PlanRow {
        kind,
        first,
        last,
        fate,
    };
    Ok(Planned { who, row })
}

/// Reads whose steps a row speaks of.
#[derive(Drop)]
struct WhoReader<'a> {
    known: &'a Known<'a>,
}

impl FieldReader for WhoReader<'_> {
    type Content = Who;

    ghost reads = { λ w. who_in w.known.now.shards.now w.known.now.lanes };

    fn read(self, alloc: Global, json: &Json) -> Result<Who, Fault> {
        match text_in(alloc, json) {
            Ok(text) => match words_of(alloc, text) {
                Ok(words) => who_with(alloc, self.known, words.as_slice()),
                Err(AllocError) => Err(WalkFault::NoMemory),
            },
            Err(fault) => Err(fault),
        }
    }
}

fn who_with(alloc: Global, known: &Known, words: &[&str]) -> Result<Who, Fault>
    ensures { result ≡ who_with known.now.shards.now known.now.lanes (map (λ w. w.now) words.now) }
{
    match words {
        [first, rest @ ..] => {
            if is_same(first, "coordinator") {
                return coordinator_of(alloc, rest);
            }
            let recipient = recipient_named(alloc, known, first)?;
            who_of(alloc, known, recipient, rest)
        }
        [] => Err(unknown_here(alloc)),
    }
}

fn coordinator_of(alloc: Global, words: &[&str]) -> Result<Who, Fault>
    ensures { result ≡ coordinator_of (map (λ w. w.now) words.now) }
{
    if words.is_empty() {
        Ok(Who::Coordinator)
    } else {
        Err(wrong_kind(alloc))
    }
}

/// An empty first word names nothing.
fn recipient_named(alloc: Global, known: &Known, name: &str) -> Result<ShardId, Fault>
    ensures { result ≡ recipient_named known.now.shards.now name.now }
{
    if name.is_empty() {
        return Err(unknown_here(alloc));
    }
    known.shard(alloc, name)
}

/// The link or the lane of a recipient, by the words after it.
fn who_of(alloc: Global, known: &Known, recipient: ShardId, words: &[&str]) -> Result<Who, Fault>
    ensures { result ≡ who_of known.now.shards.now known.now.lanes recipient (map (λ w. w.now) words.now) }
{
    match words {
        [donor, rest @ ..] => who_after(alloc, known, recipient, donor, rest),
        [] => Err(wrong_kind(alloc)),
    }
}

fn who_after(
    alloc: Global,
    known: &Known,
    recipient: ShardId,
    donor: &str,
    words: &[&str],
) -> Result<Who, Fault>
    ensures { result ≡ who_after known.now.shards.now known.now.lanes recipient donor.now
        (map (λ w. w.now) words.now) }
{
    match words {
        [lane, rest @ ..] => {
            if rest.is_empty() {
                lane_who(alloc, known, recipient, donor, lane)
            } else {
                Err(wrong_kind(alloc))
            }
        }
        [] => link_who(alloc, known, recipient, donor),
    }
}

fn link_who(alloc: Global, known: &Known, recipient: ShardId, donor: &str) -> Result<Who, Fault>
    ensures { result ≡ link_who known.now.shards.now known.now.lanes recipient donor.now }
{
    let donor = known.shard(alloc, donor)?;
    Ok(Who::Link { recipient, donor })
}

fn lane_who(
    alloc: Global,
    known: &Known,
    recipient: ShardId,
    donor: &str,
    lane: &str,
) -> Result<Who, Fault>
    ensures { result ≡ lane_who known.now.shards.now known.now.lanes recipient donor.now lane.now }
{
    let donor = known.shard(alloc, donor)?;
    let lane = known.lane(alloc, lane)?;
    Ok(Who::Lane {
        recipient,
        donor,
        lane,
    })
}

/// Reads a fate of a kind.
#[derive(Drop)]
struct FateReader {
    kind: Kind,
}

impl FieldReader for FateReader {
    type Content = PlanFate;

    ghost reads = { λ f. fate_in f.kind };

    fn read(self, alloc: Global, json: &Json) -> Result<PlanFate, Fault> {
        match text_in(alloc, json) {
            Ok(name) => match self.kind {
                Kind::Commit => commit_fate(alloc, name),
                Kind::Deliver => delivery_fate(alloc, name),
            },
            Err(fault) => Err(fault),
        }
    }
}

fn commit_fate(alloc: Global, name: &str) -> Result<PlanFate, Fault>
    ensures { result ≡ commit_fate name.now }
{
    if is_same(name, "crashedBefore") {
        return Ok(PlanFate::CrashedBefore);
    }
    if is_same(name, "crashedAfter") {
        return Ok(PlanFate::CrashedAfter);
    }
    if is_same(name, "failed") {
        return Ok(PlanFate::Failed);
    }
    Err(wrong_kind(alloc))
}

fn delivery_fate(alloc: Global, name: &str) -> Result<PlanFate, Fault>
    ensures { result ≡ delivery_fate name.now }
{
    if is_same(name, "lost") {
        return Ok(PlanFate::Lost);
    }
    if is_same(name, "twice") {
        return Ok(PlanFate::Twice);
    }
    Err(wrong_kind(alloc))
}
