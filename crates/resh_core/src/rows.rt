//! The table of events: when a step isn't idle, and what an event that is no client's changes and shows.

ghost use Rattle.std.specs.Prelude.{◌≡◌, true, IfOk, OnErr, OnOk};
ghost use Rattle.std.specs.Option.{option_copied};
ghost use Rattle.resh_events.specs.Bounds.{is_bounded};
ghost use Rattle.resh_events.specs.Luck.{may_want_memory};
ghost use Rattle.resh_events.specs.Steps as steps;
ghost use Rattle.resh_events.specs.Table as table;
ghost use Rattle.resh_events.specs.rows.Again as again_row;
ghost use Rattle.resh_events.specs.rows.Apply as apply_row;

use resh_asking::may_ask;
use resh_cells::Cluster;
use resh_copying::{
    again, apply, clone, crash, cut, fetch, may_again, may_apply, may_clone, may_crash, may_cut,
    may_fetch, may_record, next_piece, peek_next_piece, peek_piece_at, piece_at, record,
};
use resh_oplog::Piece;
use resh_setup::{Event, Seen, Setup};
use resh_stamp::Stamp;
use resh_telling::{
    advance, begin, fail, may_advance, may_begin, may_fail, may_report, may_retell, may_tell,
    report, tell,
};
use resh_value::{NoMemory, ShardId};
use std::alloc::Global;

/// The piece that a step hands over.
pub(crate) fn piece_for<'a>(cluster: &'a Cluster, event: &Event) -> Option<&'a Piece>
    ensures { option_copied result ≡ steps.piece_for cluster.now event.now }
{
    match event {
        Event::Apply {
            recipient,
            donor,
            lane,
        } => peek_next_piece(cluster, *recipient, *donor, *lane),
        Event::Again {
            recipient,
            donor,
            lane,
            position,
        } => peek_piece_at(cluster, *recipient, *donor, *lane, *position),
        _ => None,
    }
}

/// Whether a step of this event isn't idle.
#[tactic(auto, unfolding(resh_events::specs::Table::may))]
pub(crate) fn may_step(cluster: &Cluster, setup: &Setup, event: &Event) -> bool
    ensures { result ≡ steps.may_step setup.now cluster.now event.now }
{
    match event {
        Event::Client { client } => may_ask(cluster, setup, *client),
        Event::Begin => may_begin(cluster),
        Event::Tell { shard } => may_tell(cluster, *shard),
        Event::Retell { shard, message } => may_retell(cluster, *shard, *message),
        Event::Advance => may_advance(cluster),
        Event::Clone { recipient, donor } => may_clone(cluster, *recipient, *donor),
        Event::Fetch { recipient, donor } => may_fetch(cluster, *recipient, *donor),
        Event::Cut { recipient, donor } => may_cut(cluster, *recipient, *donor),
        Event::Apply {
            recipient,
            donor,
            lane,
        } => {
            let piece = peek_next_piece(cluster, *recipient, *donor, *lane);
            may_apply(cluster, *recipient, *donor, *lane, piece)
        }
        Event::Again {
            recipient,
            donor,
            lane,
            position,
        } => {
            let piece = peek_piece_at(cluster, *recipient, *donor, *lane, *position);
            may_again(cluster, *recipient, *donor, *lane, *position, piece)
        }
        Event::Record { recipient, donor } => may_record(cluster, *recipient, *donor),
        Event::Crash { recipient, donor } => may_crash(cluster, *recipient, *donor),
        Event::Report { recipient } => may_report(cluster, *recipient),
        Event::Fail { link, cause } => may_fail(*link, cause),
    }
}

/// Makes the row of an event that is no client's, with the piece that a step hands over. Want of memory leaves all as
/// it was where it is the event's own.
#[tactic(auto, unfolding(resh_events::specs::Table::change, resh_events::specs::Table::seen))]
pub(crate) fn change(
    cluster: &mut Cluster,
    alloc: Global,
    setup: &Setup,
    stamp: Stamp,
    event: &Event,
) -> Result<Seen, NoMemory>
    ensures ok { OnOk result (let piece = steps.piece_for cluster.old event.now in
        cluster.new ≡ table.change setup.now stamp cluster.old event.now piece) }
    ensures seen { IfOk result (λ seen. let piece = steps.piece_for cluster.old event.now in
        seen ≡ table.seen setup.now stamp cluster.old event.now piece) }
    ensures bounded { IfOk result (λ seen. is_bounded cluster.old event.now ≡ true) }
    ensures unchanged { may_want_memory event.now ≡ true → OnErr result (cluster.new ≡ cluster.old) }
{
    let _setup = setup;
    match event {
        Event::Client { .. } => Err(NoMemory),
        Event::Begin => Ok(begin(cluster)),
        Event::Tell { shard } => tell(cluster, alloc, stamp, *shard),
        Event::Retell { .. } => Ok(Seen::NothingNew),
        Event::Advance => Ok(advance(cluster, stamp)),
        Event::Clone { recipient, donor } => clone(cluster, alloc, *recipient, *donor),
        Event::Fetch { recipient, donor } => fetch(cluster, *recipient, *donor),
        Event::Cut { recipient, donor } => cut(cluster, alloc, stamp, *recipient, *donor),
        Event::Apply {
            recipient,
            donor,
            lane,
        } => { apply_next(cluster, alloc, *recipient, *donor, *lane) }
        Event::Again {
            recipient,
            donor,
            lane,
            position,
        } => { give_again(cluster, alloc, *recipient, *donor, *lane, *position) }
        Event::Record { recipient, donor } => record(cluster, *recipient, *donor),
        Event::Crash { recipient, donor } => crash(cluster, *recipient, *donor),
        Event::Report { recipient } => report(cluster, alloc, *recipient),
        Event::Fail { link, cause } => fail(cluster, alloc, *link, cause),
    }
}

fn apply_next(
    cluster: &mut Cluster,
    alloc: Global,
    r: ShardId,
    d: ShardId,
    lane: u32,
) -> Result<Seen, NoMemory>
    ensures ok { OnOk result (let piece = steps.piece_for cluster.old (Event.Apply r d lane) in
        cluster.new ≡ apply_row.change cluster.old r.0 d.0 lane piece) }
    ensures seen { IfOk result (λ seen. let piece = steps.piece_for cluster.old (Event.Apply r d lane) in
        seen ≡ apply_row.seen cluster.old r.0 d.0 lane piece) }
    ensures unchanged { OnErr result (cluster.new ≡ cluster.old) }
{
    match next_piece(cluster, alloc, r, d, lane) {
        Ok(Some(piece)) => apply(cluster, r, d, lane, piece),
        Ok(None) => Err(NoMemory),
        Err(NoMemory) => Err(NoMemory),
    }
}

fn give_again(
    cluster: &mut Cluster,
    alloc: Global,
    r: ShardId,
    d: ShardId,
    lane: u32,
    position: u32,
) -> Result<Seen, NoMemory>
    ensures ok { OnOk result (let piece = steps.piece_for cluster.old (Event.Again r d lane position) in
        cluster.new ≡ again_row.change cluster.old r.0 d.0 lane piece) }
    ensures seen { IfOk result (λ seen. let piece = steps.piece_for cluster.old (Event.Again r d lane position) in
        seen ≡ again_row.seen cluster.old r.0 d.0 lane piece) }
    ensures unchanged { OnErr result (cluster.new ≡ cluster.old) }
{
    match piece_at(cluster, alloc, r, d, lane, position) {
        Ok(Some(piece)) => again(cluster, r, d, lane, piece),
        Ok(None) => Err(NoMemory),
        Err(NoMemory) => Err(NoMemory),
    }
}
