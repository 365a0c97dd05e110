//! What an update makes of a document, as a change.

ghost use Rattle.std.specs.Prelude.{◌≡◌, ◌≢◌, IfOk, IfErr, Ok, Err, codes, false};
ghost use Rattle.resh_value.specs.Change.{is_named};
ghost use Rattle.resh_value.specs.Names.{HasRisingNames};
ghost use Rattle.resh_value.specs.Outcome.{Gives};
ghost use Rattle.resh_ops.specs.Changes.{LeadsTo};
ghost use Rattle.resh_ops.specs.Paths.{Document as Fields, erase, is_scalar, reach};
ghost use Rattle.resh_ops.specs.Updates.{acted, acted_all, done_at, fault_of, moved_to, updated, within_limits};

use crate::difference::difference;
use crate::doing::{Doing, Refusal, decide};
use crate::faults::ChangeFault;
use crate::operator::Action;
use crate::path::{Reached, dotted, erased, reach, written};
use crate::update::Update;
use resh_value::{Change, Document, NoMemory, Value, Words};
use std::alloc::Global;

// A result may have this many levels.
const MOST_LEVELS: u32 = 32;

impl Update {
    /// The change from a document to what the update makes of it. It assigns the top-level fields that are new or have
    /// another value, and unsets those that are gone; `_id` is never among them.
    ///
    /// The fault is that of the first action that has one, else `TooLarge` where the result's text has more than
    /// `limit` bytes, else `TooDeep` where the result has more than 32 levels.
    pub fn change(&self, document: &Document, limit: u32) -> Result<Change, ChangeFault>
        ensures ok { IfOk result
            (λ change. (after : Fields) × (updated limit self.now document.now ≡ Ok after)
            × LeadsTo document.now after change.assign change.unset) }
        ensures rising { IfOk result (λ change. HasRisingNames change.assign) }
        ensures id { IfOk result (λ change. is_named change.assign change.unset (codes "_id") ≡ false) }
        ensures fault { IfErr result (λ f. f ≢ ChangeFault.NoMemory → updated limit self.now document.now ≡ Err f) }
    {
        let alloc = self.alloc();
        let after = updated(alloc, self.actions(), document.copy()?, limit)?;
        Ok(difference(alloc, document, &after)?)
    }
}

// The document after all actions, if it is within the limits.
fn updated(
    alloc: Global,
    actions: &[Action],
    document: Document,
    limit: u32,
) -> Result<Document, ChangeFault>
    ensures { Gives ChangeFault.NoMemory result (updated limit actions.now document) }
{
    let after = acted_all(alloc, actions, document)?;
    within_limits(alloc, after, limit)
}

fn within_limits(alloc: Global, document: Document, limit: u32) -> Result<Document, ChangeFault>
    ensures { Gives ChangeFault.NoMemory result (within_limits limit document) }
{
    let text = document.append_text(Vec::new(alloc))?;
    if text.len() as u64 > u64::from(limit) {
        return Err(ChangeFault::TooLarge);
    }
    if document.depth() > MOST_LEVELS {
        return Err(ChangeFault::TooDeep);
    }
    Ok(document)
}

fn acted_all(alloc: Global, actions: &[Action], document: Document) -> Result<Document, ChangeFault>
    ensures { Gives ChangeFault.NoMemory result (acted_all actions.now document) }
{
    let mut document = document;
    for action in actions {
        document = acted(alloc, document, action)?;
    }
    Ok(document)
}

fn acted(alloc: Global, document: Document, action: &Action) -> Result<Document, ChangeFault>
    ensures { Gives ChangeFault.NoMemory result (acted action.now document) }
{
    let path = action.path.as_slice();
    let doing = decide(alloc, &action.operator, reach(&document, path))?;
    done_at(alloc, document, path, doing)
}

fn done_at(
    alloc: Global,
    document: Document,
    path: &[Words],
    doing: Doing,
) -> Result<Document, ChangeFault>
    ensures { Gives ChangeFault.NoMemory result (done_at path.now document doing) }
{
    match doing {
        Doing::Keeps => Ok(document),
        Doing::Writes(value) => Ok(written(alloc, document, path, value)?),
        Doing::Erases => Ok(erased(alloc, document, path)?),
        Doing::Moves(target, value) => moved(alloc, document, path, target.as_slice(), value),
        Doing::Fails(refusal) => Err(fault_of(refusal, dotted(alloc, path)?)),
    }
}

// The document where the value of a path moves to another one.
fn moved(
    alloc: Global,
    document: Document,
    path: &[Words],
    target: &[Words],
    value: Value,
) -> Result<Document, ChangeFault>
    ensures { Gives ChangeFault.NoMemory result
        (moved_to target.now value (erase path.now document) (reach target.now document)) }
{
    if leads_through_scalar(&document, target) {
        return Err(ChangeFault::ThroughScalar {
            path: dotted(alloc, target)?,
        });
    }
    let rest = erased(alloc, document, path)?;
    Ok(written(alloc, rest, target, value)?)
}

fn leads_through_scalar(document: &Document, path: &[Words]) -> bool
    ensures { result ≡ is_scalar (reach path.now document.now) }
{
    match reach(document, path) {
        Reached::Here(_) => false,
        Reached::Missing => false,
        Reached::Scalar => true,
    }
}

fn fault_of(refusal: Refusal, path: Words) -> ChangeFault
    ensures { result ≡ fault_of refusal path }
{
    match refusal {
        Refusal::NotNumber => ChangeFault::NotNumber { path },
        Refusal::OutOfRange => ChangeFault::OutOfRange { path },
        Refusal::NotArray => ChangeFault::NotArray { path },
        Refusal::ThroughScalar => ChangeFault::ThroughScalar { path },
    }
}
