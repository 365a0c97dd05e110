//! Paths of an update that equal, begin or extend one another.

ghost use Rattle.std.specs.Prelude.{◌≡◌, ◌≢◌, ◌++◌, [], IfOk, map, option_map};
ghost use Rattle.std.specs.List.{list_any, flat_map, starts_with};
ghost use Rattle.resh_value.specs.Names.{same_name};
ghost use Rattle.resh_value.specs.Outcome.{Gives};
ghost use Rattle.resh_ops.specs.Apart.{AreApart};
ghost use Rattle.resh_ops.specs.Paths.{dotted, is_related};
ghost use Rattle.resh_ops.specs.Reading.{first_conflict, without_conflict};
ghost use Rattle.resh_ops.specs.Updates.{paths_of};

use crate::faults::UpdateFaultKind;
use crate::operator::{Action, Operator};
use crate::path::dotted;
use crate::read_faults::Fault;
use resh_value::{Names, NoMemory, Sequence, WalkFault, Words};
use std::alloc::Global;
use std::collections::BTreeSet;

/// The actions, where no path conflicts with an earlier one.
pub(crate) fn without_conflict(
    alloc: Global,
    actions: Sequence<Action>,
) -> Result<Sequence<Action>, Fault>
    ensures { Gives WalkFault.NoMemory result (without_conflict actions) }
{
    match conflict_in(alloc, actions.as_slice()) {
        Ok(None) => Ok(actions),
        Ok(Some(path)) => Err(WalkFault::here(alloc, UpdateFaultKind::Conflict { path })),
        Err(NoMemory) => Err(WalkFault::NoMemory),
    }
}

/// The text of the first path that conflicts with an earlier one.
fn conflict_in(alloc: Global, actions: &[Action]) -> Result<Option<Words>, NoMemory>
    ensures { IfOk result (λ text. text ≡ option_map dotted (first_conflict [] (flat_map paths_of actions.now))) }
{
    let paths = paths_in(alloc, actions)?;
    match first_conflict(alloc, paths.as_slice())? {
        None => Ok(None),
        Some(path) => Ok(Some(dotted(alloc, path.as_slice())?)),
    }
}

/// The paths of all actions, in their order.
fn paths_in(alloc: Global, actions: &[Action]) -> Result<Vec<&Names>, NoMemory>
    ensures { IfOk result (λ paths. map (λ p. p.now) paths.items ≡ flat_map paths_of actions.now) }
{
    let mut paths = Vec::with_capacity(alloc, actions.len())?;
    for action in actions {
        paths.push(&action.path)?;
        if let Operator::Rename(target) = &action.operator {
            paths.push(target)?;
        }
    }
    Ok(paths)
}

/// The first path that equals, begins or extends an earlier one.
fn first_conflict<'a>(alloc: Global, paths: &[&'a Names]) -> Result<Option<&'a Names>, NoMemory>
    ensures { IfOk result (λ found. option_map (λ p. p.now) found ≡ first_conflict [] (map (λ p. p.now) paths.now)) }
{
    let mut taken = BTreeSet::new(alloc);
    for path in paths {
        if is_related_to_one(&taken, *path) {
            return Ok(Some(*path));
        }
        taken.insert(*path)?;
    }
    Ok(None)
}

/// Whether the path equals, begins or extends one of these. In their order such a one stands beside the path.
fn is_related_to_one<'a>(taken: &BTreeSet<&'a Names>, path: &'a Names) -> bool
    requires { AreApart (map (λ p. p.now) taken.now.keys) }
    ensures { result ≡ list_any (is_related path.now) (map (λ p. p.now) taken.now.keys) }
{
    extends_one(taken, path) || begins_one(taken, path)
}

fn extends_one<'a>(taken: &BTreeSet<&'a Names>, path: &'a Names) -> bool
    requires { AreApart (map (λ p. p.now) taken.now.keys) }
    ensures { result ≡ list_any (λ p. starts_with same_name path.now p.now) taken.now.keys }
{
    match taken.range(..=path).next_back() {
        Some(other) => path.as_slice().starts_with(other.as_slice()),
        None => false,
    }
}

fn begins_one<'a>(taken: &BTreeSet<&'a Names>, path: &'a Names) -> bool
    ensures { result ≡ list_any (λ p. starts_with same_name p.now path.now) taken.now.keys }
{
    match taken.range(path..).next() {
        Some(other) => other.as_slice().starts_with(path.as_slice()),
        None => false,
    }
}
