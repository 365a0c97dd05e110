use crate::cells::Cells;
use crate::cuts::Sent;
use resh_command::Replies;
use resh_coord::Coordinator;
use resh_donor::Donor;
use resh_fetcher::Link;
use resh_lane::Lane;
use resh_recip::Recipient;
use resh_shard::{Shard, Which};
use std::marker::Model;

/// A shard with its two machines.
#[derive(Debug, Drop)]
pub struct ShardCell {
    pub shard: Shard,
    pub donor: Donor,
    pub recipient: Recipient,
}

/// A lane, which contracts see without its room.
#[derive(Debug, Drop)]
pub struct LaneCell {
    pub lane: Lane,
}

impl Model for LaneCell {
    ghost use Rattle.resh_lane.specs.Lanes.{LaneOf, lane_code};

    ghost Value = { LaneOf };

    ghost coded = { lane_code };

    ghost view = { λ c. c.lane.state };
}

/// A link, and all pieces that it ever cut, by lane.
#[derive(Debug, Drop)]
pub struct LinkCell {
    pub link: Link,
    pub sent: Sent,
}

/// The map that a client knows, and its replies.
#[derive(Debug, Drop)]
pub struct ClientCell {
    pub knows: Which,
    pub replies: Replies,
}

/// The clocks, in the shapes of the cells.
#[derive(Debug, Drop)]
pub struct Clocks {
    pub control: u64,
    pub shards: Cells<u64>,
    pub lanes: Cells<Cells<u64>>,
    pub links: Cells<Cells<u64>>,
    pub clients: Cells<u64>,
}

/// A cluster.
#[derive(Debug, Drop)]
pub struct Cluster {
    pub control: Coordinator,
    pub shards: Cells<ShardCell>,
    pub lanes: Cells<Cells<LaneCell>>,
    pub links: Cells<Cells<LinkCell>>,
    pub clients: Cells<ClientCell>,
    pub clocks: Clocks,
}
