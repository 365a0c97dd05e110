ghost use Rattle.std.specs.Prelude.{◌≡◌, IfOk};
ghost use Rattle.resh_ops.specs.Reading.{fault_at, fault_of};

use resh_value::{NoMemory, ValueFault, ValueFaultKind, WalkFault, Words};

/// What makes a JSON value no update, as `UpdateFault`.
#[derive(Debug, Drop)]
pub enum UpdateFaultKind {
    UnknownOperator { name: Words },
    Conflict { path: Words },
    IdPath,
    BadOperand { path: Words },
    Value(ValueFaultKind),
}

/// Why a JSON value is no update. A path is that of a field in the update, its names joined by dots.
#[derive(Debug, Drop)]
pub enum UpdateFault {
    /// The operator isn't known.
    UnknownOperator { name: Words },
    /// The path equals, begins or extends an earlier one.
    Conflict { path: Words },
    /// A path begins with `_id`, which no update may change.
    IdPath,
    /// No path, or an operand that the operator doesn't take. Where an operator's operand is no object the path is
    /// the operator's name, and where the update is no object or empty it is empty.
    BadOperand { path: Words },
    /// The operand is no value; this path is a JSON Pointer.
    Value(ValueFault),
    NoMemory,
}

impl From<NoMemory> for UpdateFault {
    ghost use Rattle.std.specs.Prelude.{◌≡◌};
    ghost use Rattle.resh_ops.specs.declared.faults.UpdateFault.TheVariants.{NoMemory};

    ghost from_gives = { λ e f. f ≡ NoMemory };

    fn from(_: NoMemory) -> UpdateFault {
        UpdateFault::NoMemory
    }
}

impl UpdateFault {
    /// What a walk ended with, as it is answered: only the fault of a value tells its place in the JSON value.
    pub fn of(fault: WalkFault<UpdateFaultKind>) -> UpdateFault
        ensures { result ≡ fault_of fault }
    {
        match fault {
            WalkFault::At { path, kind } => UpdateFault::at(path, kind),
            WalkFault::NoMemory => UpdateFault::NoMemory,
        }
    }

    fn at(place: Words, kind: UpdateFaultKind) -> UpdateFault
        ensures { result ≡ fault_at kind place }
    {
        match kind {
            UpdateFaultKind::UnknownOperator { name } => UpdateFault::UnknownOperator { name },
            UpdateFaultKind::Conflict { path } => UpdateFault::Conflict { path },
            UpdateFaultKind::IdPath => UpdateFault::IdPath,
            UpdateFaultKind::BadOperand { path } => UpdateFault::BadOperand { path },
            UpdateFaultKind::Value(kind) => {
                UpdateFault::Value(ValueFault::of(WalkFault::At { path: place, kind }))
            }
        }
    }
}

/// Why an update can't be made on a document. A path is that of a field, its names joined by dots.
#[derive(Debug, Drop)]
pub enum ChangeFault {
    /// The field is there and holds no number.
    NotNumber { path: Words },
    /// The sum or product isn't within 64 bits.
    OutOfRange { path: Words },
    /// The field is there and holds no array.
    NotArray { path: Words },
    /// The path leads through a value that is no document.
    ThroughScalar { path: Words },
    /// The result's text is longer than the limit.
    TooLarge,
    /// The result has more than 32 levels.
    TooDeep,
    NoMemory,
}

impl From<NoMemory> for ChangeFault {
    ghost use Rattle.std.specs.Prelude.{◌≡◌};
    ghost use Rattle.resh_ops.specs.declared.faults.ChangeFault.TheVariants.{NoMemory};

    ghost from_gives = { λ e f. f ≡ NoMemory };

    fn from(_: NoMemory) -> ChangeFault {
        ChangeFault::NoMemory
    }
}

impl ChangeFault {
    pub fn copy(&self) -> Result<ChangeFault, NoMemory>
        ensures { IfOk result (λ fault. fault ≡ self.now) }
    {
        match self {
            ChangeFault::NotNumber { path } => Ok(ChangeFault::NotNumber { path: path.copy()? }),
            ChangeFault::OutOfRange { path } => Ok(ChangeFault::OutOfRange { path: path.copy()? }),
            ChangeFault::NotArray { path } => Ok(ChangeFault::NotArray { path: path.copy()? }),
            ChangeFault::ThroughScalar { path } => Ok(ChangeFault::ThroughScalar {
                path: path.copy()?,
            }),
            ChangeFault::TooLarge => Ok(ChangeFault::TooLarge),
            ChangeFault::TooDeep => Ok(ChangeFault::TooDeep),
            ChangeFault::NoMemory => Ok(ChangeFault::NoMemory),
        }
    }
}
