//! The coordinator leaves a phase.

ghost use Rattle.std.specs.Prelude.{◌≡◌};
ghost use Rattle.resh_events.specs.rows.Advance as table;

use resh_cells::Cluster;
use resh_coord::Phase;
use resh_setup::Seen;
use resh_stamp::Stamp;

/// Whether the coordinator may leave its phase: all were told and have reported whom it asks for.
pub fn may_advance(cluster: &Cluster) -> bool
    ensures { result ≡ table.may cluster.now }
{
    cluster.control.may_advance()
}

/// The coordinator leaves its phase, where it may; the phase to which it leads.
pub fn advance(cluster: &mut Cluster, stamp: Stamp) -> Seen
    ensures state { cluster.new ≡ table.change stamp cluster.old }
    ensures seen { result ≡ table.seen stamp cluster.old }
{
    cluster.control.advance(stamp.time);
    seen_of(cluster.control.phase())
}

fn seen_of(phase: Phase) -> Seen
    ensures { result ≡ table.phase_seen phase }
{
    match phase {
        Phase::Initializing => Seen::Idle,
        Phase::PreparingToDonate => Seen::PreparingToDonate,
        Phase::Cloning => Seen::Cloning,
        Phase::Applying => Seen::Applying,
        Phase::BlockingWrites => Seen::BlockingWrites,
        Phase::Committing => Seen::Committing,
        Phase::Aborting => Seen::Aborting,
        Phase::Done => Seen::Done,
    }
}
