//! The texts of paths.

ghost use Rattle.std.specs.Prelude.{◌≡◌, IfOk, map};
ghost use Rattle.std.specs.List.{list_all};
ghost use Rattle.resh_value.specs.Names.{same_name};
ghost use Rattle.resh_value.specs.Outcome.{Gives};
ghost use Rattle.resh_ops.specs.Reading.{names_in, is_step, begins_with_id, path_with, path_of};

use crate::faults::UpdateFaultKind;
use crate::read_faults::{Fault, bad_operand};
use resh_value::{DOLLAR, Names, NoMemory, Sequence, WalkFault, Words};
use std::alloc::{AllocError, Global};

/// The path of a text. A bad one is reported with the path `named`.
pub(crate) fn path_of(alloc: Global, named: &str, text: &str) -> Result<Names, Fault>
    ensures { Gives WalkFault.NoMemory result (path_of named.now text.now) }
{
    match names_in(alloc, text) {
        Ok(names) => path_with(alloc, named, names.as_slice()),
        Err(AllocError) => Err(WalkFault::NoMemory),
    }
}

fn names_in(alloc: Global, text: &str) -> Result<Vec<&str>, AllocError>
    ensures { IfOk result (λ v. map (λ n. n.now) v.items ≡ names_in text.now) }
{
    text.split('.').collect(alloc)
}

fn path_with(alloc: Global, named: &str, names: &[&str]) -> Result<Names, Fault>
    ensures { Gives WalkFault.NoMemory result (path_with named.now (map (λ n. n.now) names.now)) }
{
    if !has_steps_alone(names) {
        return Err(bad_operand(alloc, named));
    }
    if begins_with_id(names) {
        return Err(WalkFault::here(alloc, UpdateFaultKind::IdPath));
    }
    Ok(owned(alloc, names)?)
}

fn has_steps_alone(names: &[&str]) -> bool
    ensures { result ≡ list_all is_step (map (λ n. n.now) names.now) }
{
    names.iter().all(|name| is_step(name))
}

fn is_step(name: &str) -> bool
    ensures { result ≡ is_step name.now }
{
    let bytes = name.as_bytes();
    !bytes.is_empty() && bytes[0] != DOLLAR
}

fn begins_with_id(names: &[&str]) -> bool
    ensures { result ≡ begins_with_id (map (λ n. n.now) names.now) }
{
    match names {
        [name, ..] => *name == "_id",
        [] => false,
    }
}

fn owned(alloc: Global, names: &[&str]) -> Result<Names, NoMemory>
    ensures { IfOk result (λ owned. owned ≡ map (λ n. n.now) names.now) }
{
    let mut owned = Vec::with_capacity(alloc, names.len())?;
    for name in names {
        owned.push(Words::of(alloc, name)?)?;
    }
    Ok(Sequence::from_vec(owned))
}
