ghost use Rattle.std.specs.Prelude.{◌≡◌};
ghost use Rattle.resh_value.specs.Walk.{as_kind};
ghost use Rattle.resh_filter.specs.Filters.{fault_of};

use resh_value::{NoMemory, ValueFault, ValueFaultKind, WalkFault, Words};

/// What makes a JSON value no filter.
#[derive(Debug, Drop)]
pub enum FilterFaultKind {
    /// A top-level name with a dot.
    DottedName,
    /// No object, or one with a value that is none.
    Value(ValueFaultKind),
}

/// Why a JSON value is no filter, with the place as a JSON Pointer.
#[derive(Debug, Drop)]
pub enum FilterFault {
    /// A top-level name with a dot; the path is that of its member.
    DottedName { path: Words },
    /// No object, or one with a value that is none.
    Value(ValueFault),
    NoMemory,
}

impl From<NoMemory> for FilterFault {
    ghost use Rattle.std.specs.Prelude.{◌≡◌};
    ghost use Rattle.resh_filter.specs.declared.fault.FilterFault.TheVariants.{NoMemory};

    ghost from_gives = { λ e f. f ≡ NoMemory };

    fn from(_: NoMemory) -> FilterFault {
        FilterFault::NoMemory
    }
}

impl FilterFault {
    /// What a walk ended with, as it is answered.
    pub fn of(fault: WalkFault<FilterFaultKind>) -> FilterFault
        ensures { result ≡ fault_of fault }
    {
        match fault {
            WalkFault::At { path, kind } => match kind {
                FilterFaultKind::DottedName => FilterFault::DottedName { path },
                FilterFaultKind::Value(kind) => {
                    FilterFault::Value(ValueFault::of(WalkFault::At { path, kind }))
                }
            },
            WalkFault::NoMemory => FilterFault::NoMemory,
        }
    }
}

/// The fault of a value, as a filter's.
pub(crate) fn in_value(fault: WalkFault<ValueFaultKind>) -> WalkFault<FilterFaultKind>
    ensures { result ≡ as_kind FilterFaultKind.Value fault }
{
    match fault {
        WalkFault::At { path, kind } => WalkFault::At {
            path,
            kind: FilterFaultKind::Value(kind),
        },
        WalkFault::NoMemory => WalkFault::NoMemory,
    }
}
