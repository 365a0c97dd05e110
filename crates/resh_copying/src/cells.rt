//! One cell of a cluster; what stands where no cell is has its own name in contracts.

ghost use Rattle.std.specs.Prelude.{◌≡◌, unwrap_or};
ghost use Rattle.std.specs.Option.{option_copied};
ghost use Rattle.resh_cells.specs.Cells.{lane_in, lanes_of, link_in, no_lane, no_link, no_shard, shard_in};

use resh_cells::{Cluster, LaneCell, LinkCell, ShardCell};
use resh_value::ShardId;

pub(crate) fn shard_of(cluster: &Cluster, shard: ShardId) -> Option<&ShardCell>
    ensures { unwrap_or (option_copied result) no_shard ≡ shard_in cluster.now shard.0 }
{
    cluster.shards.get(shard.0)
}

pub(crate) fn link_of(cluster: &Cluster, r: ShardId, d: ShardId) -> Option<&LinkCell>
    ensures { unwrap_or (option_copied result) no_link ≡ link_in cluster.now r.0 d.0 }
{
    match cluster.links.get(r.0) {
        Some(links) => links.get(d.0),
        None => None,
    }
}

pub(crate) fn lane_of(cluster: &Cluster, r: ShardId, lane: u32) -> Option<&LaneCell>
    ensures { unwrap_or (option_copied result) no_lane ≡ lane_in cluster.now r.0 lane }
{
    match cluster.lanes.get(r.0) {
        Some(lanes) => lanes.get(lane),
        None => None,
    }
}

/// All lanes of a recipient.
pub(crate) fn lanes_of(cluster: &Cluster, r: ShardId) -> &[LaneCell]
    ensures { result.now ≡ lanes_of cluster.now r.0 }
{
    match cluster.lanes.get(r.0) {
        Some(lanes) => lanes.as_slice(),
        None => &[],
    }
}
