use resh_cells::Cells;

/// The lucks of all activities: the coordinator's, those of the links by recipient and donor, and those of the lanes by
/// recipient, donor and lane.
#[derive(Debug, Drop)]
pub struct Lucks<L> {
    pub coordinator: L,
    pub links: Cells<L>,
    pub lanes: Cells<L>,
}
