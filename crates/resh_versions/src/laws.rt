//! Laws of versions, each a contract of a function that does nothing.

ghost use Rattle.resh_versions.specs.Laws.{AddsVersion, KeepsFiled, KeepsLists, ListsGoOn, PrunesUnseen, ReadsNow};
ghost use Rattle.resh_versions.specs.Laws.{RemovesOne, StandsByReading, StandsNow, StartsEmpty, StoresLast, TakesBack};

/// A version is what its `_id` has from its time on and changes nothing else, and taken back it leaves no trace. Where
/// no version is later, the reading at a time is what stands now. Pruning changes no reading from the new floor on.
pub fn version_laws()
    ensures starts { StartsEmpty }
    ensures adds { AddsVersion }
    ensures removes { RemovesOne }
    ensures takes_back { TakesBack }
    ensures reads_now { ReadsNow }
    ensures prunes { PrunesUnseen }
    ensures filed { KeepsFiled }
    ensures stores { StoresLast }
{}

/// The documents at a time, and now, are those that are read, each once, by `_id`. Later versions and prunings leave
/// the list at a time, and the list above an `_id` continues the list up to it.
pub fn list_laws()
    ensures stands { StandsByReading }
    ensures stands_now { StandsNow }
    ensures keeps { KeepsLists }
    ensures goes_on { ListsGoOn }
{}
