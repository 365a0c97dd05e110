//! What an operator does, by what stands at its path.

ghost use Rattle.std.specs.Prelude.{◌≡◌, ◌++◌, [], ◌∷◌, ◌+ℤ◌, ◌*ℤ◌, cond, IfOk};
ghost use Rattle.std.specs.Ordering.{is_gt, is_lt};
ghost use Rattle.std.specs.List.{list_any};
ghost use Rattle.resh_value.specs.Order.{compare_of};
ghost use Rattle.resh_value.specs.declared.value.Value.{Value, out-Value};
ghost use Rattle.resh_ops.specs.Operators.{adds, does, on_array, on_number, popped, pushes, writes_number};
ghost use Rattle.resh_ops.specs.Paths.{reached, here, missing, scalar};
ghost use Rattle.resh_ops.specs.declared.doing.Doing.TheVariants.{Keeps, Writes};

use crate::operator::{Operator, Side};
use crate::path::Reached;
use resh_value::{Items, Names, NoMemory, Value, compare};
use std::alloc::Global;

/// What is done at a path.
#[derive(Drop)]
pub(crate) enum Doing {
    Keeps,
    Writes(Value),
    Erases,
    /// The value moves to this path.
    Moves(Names, Value),
    Fails(Refusal),
}

/// Why an operator doesn't do what it is asked.
#[derive(Drop)]
pub(crate) enum Refusal {
    NotNumber,
    OutOfRange,
    NotArray,
    ThroughScalar,
}

/// What an operator does at a path that leads here.
pub(crate) fn decide(alloc: Global, operator: &Operator, place: Reached) -> Result<Doing, NoMemory>
    ensures { IfOk result (λ d. d ≡ does operator.now (reached place.entry)) }
{
    match place {
        Reached::Here(value) => at_value(alloc, operator, value),
        Reached::Missing => at_missing(alloc, operator),
        Reached::Scalar => Ok(at_scalar(operator)),
    }
}

fn at_value(alloc: Global, operator: &Operator, field: &Value) -> Result<Doing, NoMemory>
    ensures { IfOk result (λ d. d ≡ does operator.now (here field.now)) }
{
    match operator {
        Operator::AddToSet(value) => add_to_set(alloc, field, value),
        Operator::Inc(n) => Ok(sum(field, *n)),
        Operator::Max(value) => greater(alloc, field, value),
        Operator::Min(value) => lesser(alloc, field, value),
        Operator::Mul(n) => Ok(product(field, *n)),
        Operator::Pop(side) => pop(alloc, field, *side),
        Operator::Push(value) => push(alloc, field, value),
        Operator::Rename(target) => Ok(Doing::Moves(target.copy()?, field.copy(alloc)?)),
        Operator::Set(value) => Ok(Doing::Writes(value.copy(alloc)?)),
        Operator::Unset => Ok(Doing::Erases),
    }
}

fn at_missing(alloc: Global, operator: &Operator) -> Result<Doing, NoMemory>
    ensures { IfOk result (λ d. d ≡ does operator.now missing) }
{
    match operator {
        Operator::AddToSet(value) => array_of(alloc, value),
        Operator::Inc(n) => Ok(Doing::Writes(Value::Int(*n))),
        Operator::Max(value) => Ok(Doing::Writes(value.copy(alloc)?)),
        Operator::Min(value) => Ok(Doing::Writes(value.copy(alloc)?)),
        Operator::Mul(_) => Ok(Doing::Writes(Value::Int(0))),
        Operator::Pop(_) => Ok(Doing::Keeps),
        Operator::Push(value) => array_of(alloc, value),
        Operator::Rename(_) => Ok(Doing::Keeps),
        Operator::Set(value) => Ok(Doing::Writes(value.copy(alloc)?)),
        Operator::Unset => Ok(Doing::Keeps),
    }
}

fn at_scalar(operator: &Operator) -> Doing
    ensures { result ≡ does operator.now scalar }
{
    match operator {
        Operator::AddToSet(_) => Doing::Fails(Refusal::ThroughScalar),
        Operator::Inc(_) => Doing::Fails(Refusal::ThroughScalar),
        Operator::Max(_) => Doing::Fails(Refusal::ThroughScalar),
        Operator::Min(_) => Doing::Fails(Refusal::ThroughScalar),
        Operator::Mul(_) => Doing::Fails(Refusal::ThroughScalar),
        Operator::Pop(_) => Doing::Fails(Refusal::ThroughScalar),
        Operator::Push(_) => Doing::Fails(Refusal::ThroughScalar),
        Operator::Rename(_) => Doing::Fails(Refusal::ThroughScalar),
        Operator::Set(_) => Doing::Fails(Refusal::ThroughScalar),
        Operator::Unset => Doing::Keeps,
    }
}

fn sum(field: &Value, n: i64) -> Doing
    ensures { result ≡ on_number (λ m. writes_number (m +ℤ n)) (out-Value field.now) }
{
    match field {
        Value::Int(m) => writes_sum(*m, n),
        _ => Doing::Fails(Refusal::NotNumber),
    }
}

fn writes_sum(m: i64, n: i64) -> Doing
    ensures { result ≡ writes_number (m +ℤ n) }
{
    match m.checked_add(n) {
        Some(sum) => Doing::Writes(Value::Int(sum)),
        None => Doing::Fails(Refusal::OutOfRange),
    }
}

fn product(field: &Value, n: i64) -> Doing
    ensures { result ≡ on_number (λ m. writes_number (m *ℤ n)) (out-Value field.now) }
{
    match field {
        Value::Int(m) => writes_product(*m, n),
        _ => Doing::Fails(Refusal::NotNumber),
    }
}

fn writes_product(m: i64, n: i64) -> Doing
    ensures { result ≡ writes_number (m *ℤ n) }
{
    match m.checked_mul(n) {
        Some(product) => Doing::Writes(Value::Int(product)),
        None => Doing::Fails(Refusal::OutOfRange),
    }
}

fn greater(alloc: Global, field: &Value, value: &Value) -> Result<Doing, NoMemory>
    ensures { IfOk result (λ d. d ≡ cond (is_lt (compare_of field.now value.now)) (Writes value.now) Keeps) }
{
    if compare(field, value).is_lt() {
        return Ok(Doing::Writes(value.copy(alloc)?));
    }
    Ok(Doing::Keeps)
}

fn lesser(alloc: Global, field: &Value, value: &Value) -> Result<Doing, NoMemory>
    ensures { IfOk result (λ d. d ≡ cond (is_gt (compare_of field.now value.now)) (Writes value.now) Keeps) }
{
    if compare(field, value).is_gt() {
        return Ok(Doing::Writes(value.copy(alloc)?));
    }
    Ok(Doing::Keeps)
}

fn array_of(alloc: Global, value: &Value) -> Result<Doing, NoMemory>
    ensures { IfOk result (λ d. d ≡ Writes (Value.List (value.now ∷ []))) }
{
    appended(alloc, &[], value)
}

fn push(alloc: Global, field: &Value, value: &Value) -> Result<Doing, NoMemory>
    ensures { IfOk result (λ d. d ≡ on_array (pushes value.now) (out-Value field.now)) }
{
    match field {
        Value::List(items) => appended(alloc, items.as_slice(), value),
        _ => Ok(Doing::Fails(Refusal::NotArray)),
    }
}

fn add_to_set(alloc: Global, field: &Value, value: &Value) -> Result<Doing, NoMemory>
    ensures { IfOk result (λ d. d ≡ on_array (adds value.now) (out-Value field.now)) }
{
    match field {
        Value::List(items) => added(alloc, items.as_slice(), value),
        _ => Ok(Doing::Fails(Refusal::NotArray)),
    }
}

fn added(alloc: Global, items: &[Value], value: &Value) -> Result<Doing, NoMemory>
    ensures { IfOk result (λ d. d ≡ adds value.now items.now) }
{
    if items.contains(value) {
        return Ok(Doing::Keeps);
    }
    appended(alloc, items, value)
}

fn pop(alloc: Global, field: &Value, side: Side) -> Result<Doing, NoMemory>
    ensures { IfOk result (λ d. d ≡ on_array (λ items. Writes (Value.List (popped side items))) (out-Value field.now)) }
{
    match field {
        Value::List(items) => {
            let rest = copies(alloc, popped(items.as_slice(), side))?;
            Ok(Doing::Writes(Value::List(Items::from_vec(rest))))
        }
        _ => Ok(Doing::Fails(Refusal::NotArray)),
    }
}

fn popped(items: &[Value], side: Side) -> &[Value]
    ensures { result.now ≡ popped side items.now }
{
    match (side, items) {
        (Side::First, [_, rest @ ..]) => rest,
        (Side::Last, [rest @ .., _]) => rest,
        _ => items,
    }
}

fn appended(alloc: Global, items: &[Value], value: &Value) -> Result<Doing, NoMemory>
    ensures { IfOk result (λ d. d ≡ Writes (Value.List (items.now ++ value.now ∷ []))) }
{
    let mut list = copies(alloc, items)?;
    list.push(value.copy(alloc)?)?;
    Ok(Doing::Writes(Value::List(Items::from_vec(list))))
}

fn copies(alloc: Global, items: &[Value]) -> Result<Vec<Value>, NoMemory>
    ensures { IfOk result (λ list. list.items ≡ items.now) }
{
    let mut list = Vec::with_capacity(alloc, items.len())?;
    for item in items {
        list.push(item.copy(alloc)?)?;
    }
    Ok(list)
}
