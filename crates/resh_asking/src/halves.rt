//! What is done on one shard of a cluster.

ghost use Rattle.std.specs.Prelude.{◌≡◌, ◌<◌, true, length, IfOk, OnOk};
ghost use Rattle.resh_value.specs.Whole.{is_whole};
ghost use Rattle.resh_versions.specs.Standing.{IsFiled};
ghost use Rattle.resh_shard.specs.Decisions.{IsAsked};
ghost use Rattle.resh_shard.specs.Shards.{is_later, is_next, taken_out, undone_in};
ghost use Rattle.resh_cells.specs.Cells.{shard_in};
ghost use Rattle.resh_asking.specs.Steps.{Became, HasDone, HasTakenIn, HasTakenOut};

use crate::asked::{Did, Move};
use resh_cells::Cluster;
use resh_command::{Command, Reply};
use resh_shard::{Act, Shard, TakeIn};
use resh_stamp::{Mark, Stamp};
use resh_value::{Document, NoMemory, Value};

/// Does a command on a shard.
pub(crate) fn act_at(
    cluster: &mut Cluster,
    shard: u32,
    command: &Command,
    stamp: Stamp,
) -> Result<Did, NoMemory>
    ensures { IfOk result (λ did. Became shard cluster.old cluster.new
        (λ old new. HasDone stamp command.now old new did)) }
{
    match cluster.shards.get_mut(shard) {
        Some(cell) => act(&mut cell.shard, command, stamp),
        None => Err(NoMemory),
    }
}

fn act(shard: &mut Shard, command: &Command, stamp: Stamp) -> Result<Did, NoMemory>
    ensures { IfOk result (HasDone stamp command.now shard.old shard.new) }
{
    if !is_next(shard, stamp) || !is_asked(shard, command) {
        return Err(NoMemory);
    }
    match shard.act(command, stamp) {
        Act::Blocked => Err(NoMemory),
        Act::Done(Reply::NoMemory) => Ok(Did::Wants),
        Act::Done(reply) => Ok(Did::Replies(reply)),
        Act::Leaves { to, document } => Ok(Did::Leaves { to: to.0, document }),
    }
}

/// Whether the shard can be asked the command.
fn is_asked(shard: &Shard, command: &Command) -> bool
    ensures { result ≡ true → IsAsked shard.now command.now }
{
    match command {
        Command::Insert(document) => {
            document.is_whole() && shard.map().owner_of(document).0 == shard.id().0
        }
        Command::Update { .. } => true,
        Command::Delete { .. } => true,
        Command::Find { .. } => true,
        Command::Count { .. } => true,
        Command::Abort => false,
    }
}

/// Whether a stamp is above that of the shard's last entry.
fn is_next(shard: &Shard, stamp: Stamp) -> bool
    ensures { result ≡ is_next shard.now stamp }
{
    is_later(shard.log().last_mark(), stamp)
}

fn is_later(mark: Option<Mark>, stamp: Stamp) -> bool
    ensures { result ≡ is_later mark stamp }
{
    match mark {
        None => true,
        Some(mark) => mark.stamp.compare(&stamp).is_lt(),
    }
}

/// What stands on a shard stands under its own `_id`.
pub(crate) fn show_filed(cluster: &Cluster, shard: u32) -> Result<(), NoMemory>
    ensures filed { OnOk result (IsFiled (shard_in cluster.now shard).shard.versions.chains) }
    ensures there { OnOk result (shard < length cluster.now.shards) }
{
    match cluster.shards.get(shard) {
        Some(cell) => {
            tell_filed(&cell.shard);
            Ok(())
        }
        None => Err(NoMemory),
    }
}

fn tell_filed(shard: &Shard)
    ensures { IsFiled shard.now.versions.chains }
{
    let _least = shard.versions().floor();
}

/// Takes a document in.
pub(crate) fn take_in_at(
    cluster: &mut Cluster,
    shard: u32,
    document: Document,
    stamp: Stamp,
) -> Result<Move, NoMemory>
    requires { is_whole document ≡ true }
    ensures { IfOk result (λ came. Became shard cluster.old cluster.new
        (λ old new. HasTakenIn stamp document old new came)) }
{
    match cluster.shards.get_mut(shard) {
        Some(cell) => take_in(&mut cell.shard, document, stamp),
        None => Err(NoMemory),
    }
}

fn take_in(shard: &mut Shard, document: Document, stamp: Stamp) -> Result<Move, NoMemory>
    requires { is_whole document ≡ true }
    ensures { IfOk result (HasTakenIn stamp document shard.old shard.new) }
{
    if !is_next(shard, stamp) {
        return Err(NoMemory);
    }
    match shard.take_in(document, stamp) {
        Ok(TakeIn::Taken) => Ok(Move::Moved),
        Ok(TakeIn::Duplicate) => Ok(Move::Duplicate),
        Err(NoMemory) => Ok(Move::Wants),
    }
}

/// Takes the document of an `_id` out; whether memory was found for it.
pub(crate) fn take_out_at(
    cluster: &mut Cluster,
    shard: u32,
    id: &Value,
    stamp: Stamp,
) -> Result<bool, NoMemory>
    ensures { IfOk result (λ out. Became shard cluster.old cluster.new
        (λ old new. HasTakenOut stamp id.now old new out)) }
{
    match cluster.shards.get_mut(shard) {
        Some(cell) => take_out(&mut cell.shard, id, stamp),
        None => Err(NoMemory),
    }
}

fn take_out(shard: &mut Shard, id: &Value, stamp: Stamp) -> Result<bool, NoMemory>
    ensures { IfOk result (HasTakenOut stamp id.now shard.old shard.new) }
{
    if !is_next(shard, stamp) {
        return Err(NoMemory);
    }
    match shard.take_out(id, stamp) {
        Ok(()) => Ok(true),
        Err(NoMemory) => Ok(false),
    }
}

/// Takes back what was taken in last.
pub(crate) fn undo_at(cluster: &mut Cluster, shard: u32, id: &Value) -> Result<(), NoMemory>
    ensures { OnOk result (Became shard cluster.old cluster.new (λ old new. new ≡ undone_in id.now old)) }
{
    match cluster.shards.get_mut(shard) {
        Some(cell) => undo(&mut cell.shard, id),
        None => Err(NoMemory),
    }
}

fn undo(shard: &mut Shard, id: &Value) -> Result<(), NoMemory>
    ensures { OnOk result (shard.new ≡ undone_in id.now shard.old) }
{
    if shard.log().len() == 0 {
        return Err(NoMemory);
    }
    shard.undo_in(id);
    Ok(())
}
