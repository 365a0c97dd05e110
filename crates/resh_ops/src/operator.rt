ghost use Rattle.std.specs.Prelude.{◌≡◌, IfOk};

use resh_value::{Copied, Names, NoMemory, Value};
use std::alloc::Global;

/// What an update does at one path.
#[derive(Debug, Drop)]
pub struct Action {
    /// The names from the document down to the field.
    pub path: Names,
    pub operator: Operator,
}

/// An update operator with its operand.
#[derive(Debug, Drop)]
pub enum Operator {
    /// Puts the value at the array's end where no element equals it.
    AddToSet(Value),
    /// Adds the number.
    Inc(i64),
    /// Keeps the greater of the field and the value.
    Max(Value),
    /// Keeps the lesser of the field and the value.
    Min(Value),
    /// Multiplies by the number.
    Mul(i64),
    /// Takes an element off this end of the array.
    Pop(Side),
    /// Puts the value at the array's end.
    Push(Value),
    /// Moves the field to this path.
    Rename(Names),
    /// Gives the field the value.
    Set(Value),
    /// Removes the field.
    Unset,
}

/// An end of an array.
#[derive(Debug, Drop, Clone, Copy, PartialEq, Eq)]
pub enum Side {
    First,
    Last,
}

impl Action {
    /// An action with the same path and operator.
    pub fn copy(&self, alloc: Global) -> Result<Action, NoMemory>
        ensures { IfOk result (λ a. a ≡ self.now) }
    {
        let path = self.path.copy()?;
        let operator = self.operator.copy(alloc)?;
        Ok(Action { path, operator })
    }
}

impl Copied for Action {
    fn copied(&self, alloc: Global) -> Result<Action, NoMemory> {
        self.copy(alloc)
    }
}

impl Operator {
    /// An operator with the same operand.
    pub fn copy(&self, alloc: Global) -> Result<Operator, NoMemory>
        ensures { IfOk result (λ o. o ≡ self.now) }
    {
        match self {
            Operator::AddToSet(value) => Ok(Operator::AddToSet(value.copy(alloc)?)),
            Operator::Inc(n) => Ok(Operator::Inc(*n)),
            Operator::Max(value) => Ok(Operator::Max(value.copy(alloc)?)),
            Operator::Min(value) => Ok(Operator::Min(value.copy(alloc)?)),
            Operator::Mul(n) => Ok(Operator::Mul(*n)),
            Operator::Pop(side) => Ok(Operator::Pop(*side)),
            Operator::Push(value) => Ok(Operator::Push(value.copy(alloc)?)),
            Operator::Rename(target) => Ok(Operator::Rename(target.copy()?)),
            Operator::Set(value) => Ok(Operator::Set(value.copy(alloc)?)),
            Operator::Unset => Ok(Operator::Unset),
        }
    }
}

impl Copied for Operator {
    fn copied(&self, alloc: Global) -> Result<Operator, NoMemory> {
        self.copy(alloc)
    }
}
