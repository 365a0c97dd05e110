use crate::phase::DonorPhase;
use resh_progress::Machine;

/// A donor's machine: a release moves from every phase but the last.
pub type Donor = Machine<DonorPhase>;
