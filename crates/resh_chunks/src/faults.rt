/// Why names are no pattern of a shard key.
#[derive(Debug, Drop, Clone, Copy, PartialEq, Eq)]
pub enum PatternFault {
    /// There are not 1 to 3 names.
    Count { got: u64 },
    /// The name at this place, from 0, stands at an earlier one too.
    Repeated { place: u64 },
}

/// Why rows are no chunk map. Rows count from 0.
#[derive(Debug, Drop, Clone, Copy, PartialEq, Eq)]
pub enum ChunkFault {
    /// The first row doesn't begin below every key, or there is no row.
    FirstNotMin,
    /// The last row doesn't end above every key.
    LastNotMax,
    /// The row's lower bound isn't below its upper one.
    EmptyRange { row: u64 },
    /// The row begins above the end of the one before.
    Gap { row: u64 },
    /// The row begins below the end of the one before.
    Overlap { row: u64 },
    /// The row's shard isn't there.
    UnknownShard { row: u64 },
    /// A bound of the row has no value, or more values than the pattern has names.
    WrongLength { row: u64 },
}
