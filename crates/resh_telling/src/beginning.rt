//! The coordinator begins.

ghost use Rattle.std.specs.Prelude.{◌≡◌};
ghost use Rattle.resh_events.specs.rows.Begin as table;

use resh_cells::Cluster;
use resh_coord::Phase;
use resh_setup::Seen;

/// Whether the coordinator may begin: it hasn't.
pub fn may_begin(cluster: &Cluster) -> bool
    ensures { result ≡ table.may cluster.now }
{
    matches!(cluster.control.phase(), Phase::Initializing)
}

/// The coordinator begins, where it hasn't.
pub fn begin(cluster: &mut Cluster) -> Seen
    ensures state { cluster.new ≡ table.change cluster.old }
    ensures seen { result ≡ table.seen }
{
    cluster.control.begin();
    Seen::PreparingToDonate
}
