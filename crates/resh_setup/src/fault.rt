use resh_chunks::ChunkFault;
use resh_filter::FilterFault;
use resh_ops::UpdateFault;
use resh_value::{NoMemory, ValueFault, Words};

/// Why bytes are no cluster file. A path is a JSON Pointer to the place.
#[derive(Debug, Drop)]
pub enum SetupFault {
    NotJson,
    Missing { path: Words },
    WrongKind { path: Words },
    UnknownName { path: Words },
    Value(ValueFault),
    Chunks { path: Words, fault: ChunkFault },
    /// An update at this place.
    Update { path: Words, fault: UpdateFault },
    Filter(FilterFault),
    /// The document of this row, from 0, has the shard and the `_id` of an earlier one.
    SameId { row: u64 },
    NoId { path: Words },
    OverLimit { path: Words, limit: u64 },
    NoMemory,
}

impl From<NoMemory> for SetupFault {
    ghost use Rattle.std.specs.Prelude.{◌≡◌};
    ghost use Rattle.resh_setup.specs.declared.fault.SetupFault.TheVariants.{NoMemory};

    ghost from_gives = { λ e f. f ≡ NoMemory };

    fn from(_: NoMemory) -> SetupFault {
        SetupFault::NoMemory
    }
}
