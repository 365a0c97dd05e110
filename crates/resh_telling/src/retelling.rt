//! A shard is told once more what it was told before, which changes nothing and shows nothing new.

ghost use Rattle.std.specs.Prelude.{◌≡◌};
ghost use Rattle.resh_progress.specs.Kinds.{kind_of};
ghost use Rattle.resh_events.specs.rows.Retell as table;

use resh_cells::Cluster;
use resh_progress::Message;
use resh_setup::MessageKind;
use resh_value::ShardId;

/// Whether a message of this kind came to the shard before.
#[tactic(auto, using(crate::proofs::Changing::or_item, crate::proofs::Unheard::unheard))]
pub fn may_retell(cluster: &Cluster, shard: ShardId, message: MessageKind) -> bool
    ensures { result ≡ table.may cluster.now shard.0 message }
{
    match cluster.shards.get(shard.0) {
        Some(cell) => cell.donor.was_told(&message_of(message)),
        None => false,
    }
}

/// A message of a kind; what else it says tells nothing of its kind.
fn message_of(kind: MessageKind) -> Message
    ensures { kind_of result ≡ table.kind_of kind }
{
    match kind {
        MessageKind::Prepare => Message::Prepare,
        MessageKind::Donate => Message::Donate { fetch_time: 0 },
        MessageKind::Block => Message::Block,
        MessageKind::Install => Message::Install,
        MessageKind::Release => Message::Release,
    }
}
