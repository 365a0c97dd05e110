/// The name of a cell.
#[derive(Debug, Drop, Clone, Copy, PartialEq, Eq)]
pub enum Cell {
    Coordinator,
    Shard { shard: u32 },
    /// A lane of a recipient.
    Lane { recipient: u32, lane: u32 },
    /// A recipient's link to a donor.
    Link { recipient: u32, donor: u32 },
    Client { client: u32 },
}
