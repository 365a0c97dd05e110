ghost use Rattle.std.specs.Prelude.{◌≡◌, ◌≢◌, []};
ghost use Rattle.resh_value.specs.Paths.{to_name, to_place};
ghost use Rattle.resh_value.specs.Walk.{under};

use crate::memory::NoMemory;
use crate::paths::{joined, path_to_name, path_to_place};
use crate::words::Words;
use std::alloc::{AllocError, AllocFailed, Global};

/// Why a walk through a JSON value ended early: what it found, with the JSON Pointer from where it began.
#[derive(Debug, Drop)]
pub enum WalkFault<K> {
    At { path: Words, kind: K },
    NoMemory,
}

impl<K> From<NoMemory> for WalkFault<K> {
    ghost use Rattle.resh_value.specs.declared.walk_fault.WalkFault.TheVariants.{NoMemory};

    ghost from_gives = { λ e f. f ≡ NoMemory };

    fn from(_: NoMemory) -> WalkFault<K> {
        WalkFault::NoMemory
    }
}

impl<K> From<AllocError> for WalkFault<K> {
    ghost use Rattle.resh_value.specs.declared.walk_fault.WalkFault.TheVariants.{NoMemory};

    ghost from_gives = { λ e f. f ≡ NoMemory };

    fn from(_: AllocError) -> WalkFault<K> {
        WalkFault::NoMemory
    }
}

impl<T: Drop, K> From<AllocFailed<T>> for WalkFault<K> {
    ghost use Rattle.resh_value.specs.declared.walk_fault.WalkFault.TheVariants.{NoMemory};

    ghost from_gives = { λ e f. f ≡ NoMemory };

    fn from(_: AllocFailed<T>) -> WalkFault<K> {
        WalkFault::NoMemory
    }
}

impl<K: Drop> WalkFault<K> {
    /// A fault where the walk began.
    pub fn here(alloc: Global, kind: K) -> WalkFault<K>
        ensures { result ≡ WalkFault.At [] kind }
    {
        WalkFault::At {
            path: no_path(alloc),
            kind,
        }
    }

    /// The fault as it is seen from further out, with `step` before its path.
    pub fn under(self, alloc: Global, step: &Words) -> WalkFault<K>
        ensures { result ≢ WalkFault.NoMemory → result ≡ under step.now self }
    {
        match self {
            WalkFault::At { path, kind } => match joined(alloc, step, &path) {
                Ok(path) => WalkFault::At { path, kind },
                Err(NoMemory) => WalkFault::NoMemory,
            },
            WalkFault::NoMemory => WalkFault::NoMemory,
        }
    }

    /// The fault of an object's member, as it is seen from the object.
    pub fn under_name(self, alloc: Global, name: &str) -> WalkFault<K>
        ensures { result ≢ WalkFault.NoMemory → result ≡ under (to_name name.now) self }
    {
        match path_to_name(alloc, &no_path(alloc), name) {
            Ok(step) => self.under(alloc, &step),
            Err(NoMemory) => WalkFault::NoMemory,
        }
    }

    /// The fault of an array's item, as it is seen from the array.
    pub fn under_place(self, alloc: Global, place: u64) -> WalkFault<K>
        ensures { result ≢ WalkFault.NoMemory → result ≡ under (to_place place) self }
    {
        match path_to_place(alloc, &no_path(alloc), place) {
            Ok(step) => self.under(alloc, &step),
            Err(NoMemory) => WalkFault::NoMemory,
        }
    }
}

/// The path to the value itself.
pub fn no_path(alloc: Global) -> Words
    ensures { result ≡ [] }
{
    Words::from_string(String::new(alloc))
}
