ghost use Rattle.std.specs.Prelude.{◌≡◌, ◌≢◌};

use crate::memory::NoMemory;
use crate::paths::joined;
use crate::walk_fault::WalkFault;
use crate::words::Words;
use std::alloc::{AllocError, AllocFailed, Global};

/// What makes a JSON value no value or no document.
#[derive(Debug, Drop, Clone, Copy, PartialEq, Eq)]
pub enum ValueFaultKind {
    /// A number that isn't a whole number of 64 bits.
    NotWhole,
    /// An object that stands for a value by its only name, with another content.
    BadTag,
    /// An array or object at level 33.
    TooDeep,
    /// An object with a name that begins with `$` and isn't a tag.
    DollarName,
    /// No object where a document is wanted.
    NotDocument,
}

/// Why a JSON value is no value or no document, with the place as a JSON Pointer.
#[derive(Debug, Drop)]
pub enum ValueFault {
    /// A number that isn't a whole number of 64 bits.
    NotWhole { path: Words },
    /// An object that stands for a value by its only name, with another content.
    BadTag { path: Words },
    /// An array or object at level 33.
    TooDeep { path: Words },
    /// An object with a name that begins with `$` and isn't a tag.
    DollarName { path: Words },
    /// No object where a document is wanted.
    NotDocument { path: Words },
    NoMemory,
}

impl From<NoMemory> for ValueFault {
    ghost use Rattle.resh_value.specs.declared.fault.ValueFault.TheVariants.{NoMemory};

    ghost from_gives = { λ e f. f ≡ NoMemory };

    fn from(_: NoMemory) -> ValueFault {
        ValueFault::NoMemory
    }
}

impl From<AllocError> for ValueFault {
    ghost use Rattle.resh_value.specs.declared.fault.ValueFault.TheVariants.{NoMemory};

    ghost from_gives = { λ e f. f ≡ NoMemory };

    fn from(_: AllocError) -> ValueFault {
        ValueFault::NoMemory
    }
}

impl<T: Drop> From<AllocFailed<T>> for ValueFault {
    ghost use Rattle.resh_value.specs.declared.fault.ValueFault.TheVariants.{NoMemory};

    ghost from_gives = { λ e f. f ≡ NoMemory };

    fn from(_: AllocFailed<T>) -> ValueFault {
        ValueFault::NoMemory
    }
}

impl ValueFault {
    ghost use Rattle.resh_value.specs.FromJson.{fault_of, under};

    /// What a walk ended with, as it is answered.
    pub fn of(fault: WalkFault<ValueFaultKind>) -> ValueFault
        ensures { result ≡ fault_of fault }
    {
        match fault {
            WalkFault::At { path, kind } => match kind {
                ValueFaultKind::NotWhole => ValueFault::NotWhole { path },
                ValueFaultKind::BadTag => ValueFault::BadTag { path },
                ValueFaultKind::TooDeep => ValueFault::TooDeep { path },
                ValueFaultKind::DollarName => ValueFault::DollarName { path },
                ValueFaultKind::NotDocument => ValueFault::NotDocument { path },
            },
            WalkFault::NoMemory => ValueFault::NoMemory,
        }
    }

    /// The fault as it is seen from further out, with `step` before its path.
    pub fn under(self, alloc: Global, step: &Words) -> ValueFault
        ensures { result ≢ ValueFault.NoMemory → result ≡ under step.now self }
    {
        match self {
            ValueFault::NotWhole { path } => match joined(alloc, step, &path) {
                Ok(path) => ValueFault::NotWhole { path },
                Err(_) => ValueFault::NoMemory,
            },
            ValueFault::BadTag { path } => match joined(alloc, step, &path) {
                Ok(path) => ValueFault::BadTag { path },
                Err(_) => ValueFault::NoMemory,
            },
            ValueFault::TooDeep { path } => match joined(alloc, step, &path) {
                Ok(path) => ValueFault::TooDeep { path },
                Err(_) => ValueFault::NoMemory,
            },
            ValueFault::DollarName { path } => match joined(alloc, step, &path) {
                Ok(path) => ValueFault::DollarName { path },
                Err(_) => ValueFault::NoMemory,
            },
            ValueFault::NotDocument { path } => match joined(alloc, step, &path) {
                Ok(path) => ValueFault::NotDocument { path },
                Err(_) => ValueFault::NoMemory,
            },
            ValueFault::NoMemory => ValueFault::NoMemory,
        }
    }
}
