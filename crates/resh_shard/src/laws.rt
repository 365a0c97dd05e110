//! Laws of shards, each a contract of a function that does nothing.

ghost use Rattle.resh_shard.specs.Laws.{ChangesNothingElse, DoesAsCollection, EntriesHaveContents, HoldsAsCollection};
ghost use Rattle.resh_shard.specs.Laws.{LeavesOthers, LogGrows, LogsItsEffect, MovesAsCollection, MovesInHalves};

/// A command does to a shard what it does to the collection there, and leaves the other shards. A document that leaves
/// one moves in the collection too, unless its `_id` is held where it comes, and the two halves together are that move.
pub fn shard_laws()
    ensures does { DoesAsCollection }
    ensures holds { HoldsAsCollection }
    ensures others { LeavesOthers }
    ensures moves { MovesAsCollection }
    ensures halves { MovesInHalves }
    ensures nothing_else { ChangesNothingElse }
{}

/// What is logged of a command has on each slot the effect that the command has on the collection. A log grows by these
/// entries, whose marks are the command's stamp and the parts from 0 on, and each is destined to the owner of what it
/// writes.
pub fn log_laws()
    ensures effect { LogsItsEffect }
    ensures grows { LogGrows }
    ensures contents { EntriesHaveContents }
{}
