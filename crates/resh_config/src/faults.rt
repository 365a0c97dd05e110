//! What a walk through a cluster file finds, and the fault that is answered.

ghost use Rattle.std.specs.Prelude.{◌≡◌, ◌≢◌, ◌++◌, [], IfOk};
ghost use Rattle.resh_value.specs.Paths.{to_name};
ghost use Rattle.resh_value.specs.Walk.{under, as_kind};
ghost use Rattle.resh_config.specs.Faults.{fault_at, fault_of, in_update};

use resh_chunks::ChunkFault;
use resh_filter::{FilterFault, FilterFaultKind};
use resh_ops::{UpdateFault, UpdateFaultKind};
use resh_setup::SetupFault;
use resh_value::{NoMemory, ValueFault, ValueFaultKind, WalkFault, Words};
use std::alloc::Global;

/// What makes a JSON value no part of a setup.
#[derive(Debug, Drop)]
pub(crate) enum FaultKind {
    Missing,
    WrongKind,
    UnknownName,
    OverLimit {
        limit: u64,
    },
    NoId,
    SameId {
        row: u64,
    },
    Value(ValueFaultKind),
    Filter(FilterFaultKind),
    /// What an update's walk found, and the way to it in the update.
    Update {
        inside: Words,
        found: UpdateFaultKind,
    },
    Chunks(ChunkFault),
}

pub(crate) type Fault = WalkFault<FaultKind>;

pub(crate) fn wrong_kind(alloc: Global) -> Fault
    ensures { result ≡ WalkFault.At [] FaultKind.WrongKind }
{
    WalkFault::here(alloc, FaultKind::WrongKind)
}

pub(crate) fn over_limit(alloc: Global, limit: u64) -> Fault
    ensures { result ≡ WalkFault.At [] (FaultKind.OverLimit limit) }
{
    WalkFault::here(alloc, FaultKind::OverLimit { limit })
}

pub(crate) fn no_id(alloc: Global) -> Fault
    ensures { result ≡ WalkFault.At [] FaultKind.NoId }
{
    WalkFault::here(alloc, FaultKind::NoId)
}

/// A name that is of its form, and isn't there.
pub(crate) fn unknown_here(alloc: Global) -> Fault
    ensures { result ≡ WalkFault.At [] FaultKind.UnknownName }
{
    WalkFault::here(alloc, FaultKind::UnknownName)
}

pub(crate) fn same_id(alloc: Global, row: u64) -> Fault
    ensures { result ≡ WalkFault.At [] (FaultKind.SameId row) }
{
    WalkFault::here(alloc, FaultKind::SameId { row })
}

pub(crate) fn chunk_fault(alloc: Global, fault: ChunkFault) -> Fault
    ensures { result ≡ WalkFault.At [] (FaultKind.Chunks fault) }
{
    WalkFault::here(alloc, FaultKind::Chunks(fault))
}

pub(crate) fn missing(alloc: Global, name: &str) -> Fault
    ensures { result ≢ WalkFault.NoMemory
        → result ≡ under (to_name name.now) (WalkFault.At [] FaultKind.Missing) }
{
    WalkFault::here(alloc, FaultKind::Missing).under_name(alloc, name)
}

pub(crate) fn unknown_name(alloc: Global, name: &str) -> Fault
    ensures { result ≢ WalkFault.NoMemory
        → result ≡ under (to_name name.now) (WalkFault.At [] FaultKind.UnknownName) }
{
    WalkFault::here(alloc, FaultKind::UnknownName).under_name(alloc, name)
}

/// The fault of a value.
pub(crate) fn in_value(fault: WalkFault<ValueFaultKind>) -> Fault
    ensures { result ≡ as_kind FaultKind.Value fault }
{
    match fault {
        WalkFault::At { path, kind } => WalkFault::At {
            path,
            kind: FaultKind::Value(kind),
        },
        WalkFault::NoMemory => WalkFault::NoMemory,
    }
}

/// The fault of a filter.
pub(crate) fn in_filter(fault: WalkFault<FilterFaultKind>) -> Fault
    ensures { result ≡ as_kind FaultKind.Filter fault }
{
    match fault {
        WalkFault::At { path, kind } => WalkFault::At {
            path,
            kind: FaultKind::Filter(kind),
        },
        WalkFault::NoMemory => WalkFault::NoMemory,
    }
}

/// The fault of an update.
pub(crate) fn in_update(alloc: Global, fault: WalkFault<UpdateFaultKind>) -> Fault
    ensures { result ≡ in_update fault }
{
    match fault {
        WalkFault::At { path, kind } => WalkFault::here(
            alloc,
            FaultKind::Update {
                inside: path,
                found: kind,
            },
        ),
        WalkFault::NoMemory => WalkFault::NoMemory,
    }
}

/// The fault that is answered.
pub(crate) fn answered(alloc: Global, fault: Fault) -> SetupFault
    ensures fault { result ≢ SetupFault.NoMemory → result ≡ fault_of fault }
    ensures memory { fault ≡ WalkFault.NoMemory → result ≡ SetupFault.NoMemory }
{
    match fault {
        WalkFault::At { path, kind } => match placed(alloc, path, kind) {
            Ok(fault) => fault,
            Err(NoMemory) => SetupFault::NoMemory,
        },
        WalkFault::NoMemory => SetupFault::NoMemory,
    }
}

fn placed(alloc: Global, path: Words, kind: FaultKind) -> Result<SetupFault, NoMemory>
    ensures { IfOk result (λ fault. fault ≡ fault_at kind path) }
{
    match kind {
        FaultKind::Missing => Ok(SetupFault::Missing { path }),
        FaultKind::WrongKind => Ok(SetupFault::WrongKind { path }),
        FaultKind::UnknownName => Ok(SetupFault::UnknownName { path }),
        FaultKind::OverLimit { limit } => Ok(SetupFault::OverLimit { path, limit }),
        FaultKind::NoId => Ok(SetupFault::NoId { path }),
        FaultKind::SameId { row } => Ok(SetupFault::SameId { row }),
        FaultKind::Value(kind) => Ok(SetupFault::Value(ValueFault::of(WalkFault::At {
            path,
            kind,
        }))),
        FaultKind::Filter(kind) => {
            Ok(SetupFault::Filter(FilterFault::of(WalkFault::At { path, kind })))
        }
        FaultKind::Update { inside, found } => update_at(alloc, path, &inside, found),
        FaultKind::Chunks(fault) => Ok(SetupFault::Chunks { path, fault }),
    }
}

/// The fault of the update at a path.
fn update_at(
    alloc: Global,
    path: Words,
    inside: &Words,
    found: UpdateFaultKind,
) -> Result<SetupFault, NoMemory>
    ensures { IfOk result (λ fault. fault ≡ fault_at (FaultKind.Update inside.now found) path) }
{
    let place = joined(alloc, &path, inside)?;
    let fault = UpdateFault::of(WalkFault::At {
        path: place,
        kind: found,
    });
    Ok(SetupFault::Update { path, fault })
}

/// Two texts as one.
fn joined(alloc: Global, first: &Words, rest: &Words) -> Result<Words, NoMemory>
    ensures { IfOk result (λ w. w ≡ first.now ++ rest.now) }
{
    let mut text = String::from_str(alloc, first.as_str())?;
    text.push_str(rest.as_str())?;
    Ok(Words::from_string(text))
}
