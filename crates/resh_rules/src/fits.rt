//! What may be given to a pool.

ghost use Rattle.std.specs.Prelude.{◌≡◌, ◌↔◌, ◌&&◌, IsTrue, not};
ghost use Rattle.std.specs.List.{list_all};
ghost use Rattle.resh_value.specs.Change.{is_named};
ghost use Rattle.resh_value.specs.Names.{HasRisingNames};
ghost use Rattle.resh_value.specs.Whole.{has_rising_names};
ghost use Rattle.resh_rules.specs.Fits.{Fits, fits, may_insert, names_others};

use crate::pool::Pool;
use resh_oplog::What;
use resh_value::{Change, Document, Names, ShardId, Value};

impl Pool {
    /// Whether an entry of a donor, of which this is the `_id`, may be given to `insert`, `update` or `delete`.
    pub fn fits(&self, donor: ShardId, id: &Value, what: &What) -> bool
        ensures value { result ≡ fits self.now.state donor.0 id.now what.now }
        ensures exactly { IsTrue result ↔ Fits self.now.state donor.0 id.now what.now }
    {
        self.test(donor, id, what)
    }

    fn test(&self, donor: ShardId, id: &Value, what: &What) -> bool
        ensures { result ≡ fits self.now.state donor.0 id.now what.now }
    {
        if self.stashes.len() <= donor.0 as usize {
            return false;
        }
        match what {
            What::Insert(document) => self.may_insert(donor, id, document),
            What::Update { id: own, change } => own.is_same(id) && self.may_change(change),
            What::Delete { id: own } => own.is_same(id),
            What::Final => false,
        }
    }

    fn may_insert(&self, donor: ShardId, id: &Value, document: &Document) -> bool
        ensures { result ≡ may_insert self.now.state.chunks donor.0 id.now document.now }
    {
        document.is_whole()
            && document.id_or(&Value::Null).is_same(id)
            && self.chunks.owner_of(document).0 == donor.0
    }

    fn may_change(&self, change: &Change) -> bool
        ensures { result ≡ (has_rising_names change.now.assign && names_others self.now.state.chunks change.now) }
    {
        self.names_others(change)
    }

    fn names_others(&self, change: &Change) -> bool
        ensures value { result ≡ names_others self.now.state.chunks change.now }
        ensures rising { HasRisingNames change.now.assign }
    {
        !change.names_id() && names_none(change, self.chunks.pattern().names())
    }
}

fn names_none(change: &Change, names: &Names) -> bool
    ensures { result ≡ list_all (λ name. not (is_named change.now.assign change.now.unset name)) names.now }
{
    names.as_slice().iter().all(|name| !change.names(name))
}
