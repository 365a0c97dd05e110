//! Operators with their operands.

ghost use Rattle.std.specs.Prelude.{◌≡◌, ◌≢◌, Ok, Err};
ghost use Rattle.serde_json.specs.View.{view};
ghost use Rattle.resh_value.specs.FromJson.{walked_value};
ghost use Rattle.resh_value.specs.Outcome.{Gives};
ghost use Rattle.resh_value.specs.declared.value.Value.TheOpen.{Value-F};
ghost use Rattle.resh_ops.specs.Reading.{operator_with, with_side, with_target};

use crate::kind::Kind;
use crate::operator::{Operator, Side};
use crate::path_text::path_of;
use crate::read_faults::{Fault, bad_operand, in_value};
use resh_value::{Value, ValueFaultKind, WalkFault};
use serde_json::Value as Json;
use std::alloc::Global;

/// The operator of a kind at a path, with the operand that a JSON value is.
pub(crate) fn operator_in(
    alloc: Global,
    kind: Kind,
    path: &str,
    json: &Json,
) -> Result<Operator, Fault>
    ensures { Gives WalkFault.NoMemory result (operator_with kind path.now (walked_value (view json.now))) }
{
    match Value::walk(alloc, json) {
        Ok(value) => operator_with(alloc, kind, path, value),
        Err(fault) => Err(operand_fault(alloc, kind, path, fault)),
    }
}

/// The fault of an operand that is no value.
fn operand_fault(alloc: Global, kind: Kind, path: &str, fault: WalkFault<ValueFaultKind>) -> Fault
    ensures memory { fault ≡ WalkFault.NoMemory → result ≡ WalkFault.NoMemory }
    ensures fault { result ≢ WalkFault.NoMemory → operator_with kind path.now (Err fault) ≡ Err result }
{
    if let WalkFault::NoMemory = fault {
        return WalkFault::NoMemory;
    }
    match kind {
        Kind::Inc | Kind::Mul | Kind::Pop | Kind::Rename => bad_operand(alloc, path),
        Kind::AddToSet | Kind::Max | Kind::Min | Kind::Push | Kind::Set | Kind::Unset => {
            in_value(fault)
        }
    }
}

fn operator_with(alloc: Global, kind: Kind, path: &str, value: Value) -> Result<Operator, Fault>
    ensures { Gives WalkFault.NoMemory result (operator_with kind path.now (Ok value)) }
{
    match kind {
        Kind::AddToSet => Ok(Operator::AddToSet(value)),
        Kind::Inc => match value {
            Value::Int(n) => Ok(Operator::Inc(n)),
            _ => Err(bad_operand(alloc, path)),
        },
        Kind::Max => Ok(Operator::Max(value)),
        Kind::Min => Ok(Operator::Min(value)),
        Kind::Mul => match value {
            Value::Int(n) => Ok(Operator::Mul(n)),
            _ => Err(bad_operand(alloc, path)),
        },
        Kind::Pop => match value {
            Value::Int(n) => pop(alloc, path, n),
            _ => Err(bad_operand(alloc, path)),
        },
        Kind::Push => Ok(Operator::Push(value)),
        Kind::Rename => match value {
            Value::Text(text) => rename(alloc, path, text.as_str()),
            _ => Err(bad_operand(alloc, path)),
        },
        Kind::Set => Ok(Operator::Set(value)),
        Kind::Unset => Ok(Operator::Unset),
    }
}

/// 1 is the last element, and -1 the first.
fn pop(alloc: Global, path: &str, end: i64) -> Result<Operator, Fault>
    ensures { Gives WalkFault.NoMemory result (with_side path.now (Value-F.Int end)) }
{
    match end {
        1 => Ok(Operator::Pop(Side::Last)),
        -1 => Ok(Operator::Pop(Side::First)),
        _ => Err(bad_operand(alloc, path)),
    }
}

fn rename(alloc: Global, path: &str, target: &str) -> Result<Operator, Fault>
    ensures { Gives WalkFault.NoMemory result (with_target path.now (Value-F.Text target.now)) }
{
    match path_of(alloc, path, target) {
        Ok(target) => Ok(Operator::Rename(target)),
        Err(fault) => Err(fault),
    }
}
