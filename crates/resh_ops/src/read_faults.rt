//! Faults of an update that is read, and how they are answered.

ghost use Rattle.std.specs.Prelude.{◌≡◌, ◌≢◌, []};
ghost use Rattle.resh_value.specs.Walk.{as_kind};
ghost use Rattle.resh_ops.specs.Reading.{fault_of, under};

use crate::faults::{UpdateFault, UpdateFaultKind};
use resh_value::{NoMemory, ValueFaultKind, WalkFault, Words};
use std::alloc::Global;

pub(crate) type Fault = WalkFault<UpdateFaultKind>;

pub(crate) fn bad_operand(alloc: Global, path: &str) -> Fault
    ensures { result ≢ WalkFault.NoMemory → result ≡ WalkFault.At [] (UpdateFaultKind.BadOperand path.now) }
{
    match Words::of(alloc, path) {
        Ok(path) => WalkFault::here(alloc, UpdateFaultKind::BadOperand { path }),
        Err(NoMemory) => WalkFault::NoMemory,
    }
}

pub(crate) fn unknown_operator(alloc: Global, name: &str) -> Fault
    ensures { result ≢ WalkFault.NoMemory → result ≡ WalkFault.At [] (UpdateFaultKind.UnknownOperator name.now) }
{
    match Words::of(alloc, name) {
        Ok(name) => WalkFault::here(alloc, UpdateFaultKind::UnknownOperator { name }),
        Err(NoMemory) => WalkFault::NoMemory,
    }
}

/// The fault of a value, as an update's.
pub(crate) fn in_value(fault: WalkFault<ValueFaultKind>) -> Fault
    ensures { result ≡ as_kind UpdateFaultKind.Value fault }
{
    match fault {
        WalkFault::At { path, kind } => WalkFault::At {
            path,
            kind: UpdateFaultKind::Value(kind),
        },
        WalkFault::NoMemory => WalkFault::NoMemory,
    }
}

/// The fault as it is answered, seen from the beginning of `path`.
#[tactic(auto, using(crate::proofs::Answered::answered_under))]
pub(crate) fn answered_under(alloc: Global, path: &Words, fault: Fault) -> UpdateFault
    ensures fault { result ≢ UpdateFault.NoMemory → result ≡ under path.now (fault_of fault) }
    ensures memory { fault ≡ WalkFault.NoMemory → result ≡ UpdateFault.NoMemory }
{
    UpdateFault::of(fault.under(alloc, path))
}
