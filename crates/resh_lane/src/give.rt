//! Giving a pool an entry that fits it.

ghost use Rattle.std.specs.Prelude.{◌≡◌, ◌≤◌, ◌+◌, IfOk, OnOk, OnErr};
ghost use Rattle.resh_oplog.specs.declared.entry.What.TheVariants.{Insert, Update, Delete};
ghost use Rattle.resh_lane.specs.Lanes.{WantsMemory, room_for};
ghost use Rattle.resh_rules.specs.Fits.{Fits};
ghost use Rattle.resh_rules.specs.Pools.{given, rule_in};

use resh_oplog::What;
use resh_rules::{Pool, Rule};
use resh_value::{Document, NoMemory, ShardId, Value};

/// Gives the pool a donor's entry, for which an insert makes room. Want of memory leaves what is held as it was.
pub(crate) fn give(pool: &mut Pool, donor: ShardId, id: Value, what: What) -> Result<Rule, NoMemory>
    requires { Fits pool.old.state donor.0 id what }
    ensures rule { IfOk result (λ rule. rule ≡ rule_in donor.0 id what pool.old.state) }
    ensures state { OnOk result (pool.new.state ≡ given donor.0 id what pool.old.state) }
    ensures spare { OnOk result (pool.old.spare ≤ pool.new.spare + room_for what) }
    ensures wanted { OnErr result (WantsMemory donor.0 id what pool.old pool.new) }
{
    match what {
        What::Insert(document) => insert(pool, donor, id, document),
        What::Update { id, change } => pool.update(donor, &id, &change),
        What::Delete { id } => Ok(pool.delete(donor, &id)),
        What::Final => unreachable!(),
    }
}

fn insert(pool: &mut Pool, donor: ShardId, id: Value, document: Document) -> Result<Rule, NoMemory>
    requires { Fits pool.old.state donor.0 id (Insert document) }
    ensures rule { IfOk result (λ rule. rule ≡ rule_in donor.0 id (Insert document) pool.old.state) }
    ensures state { OnOk result (pool.new.state ≡ given donor.0 id (Insert document) pool.old.state) }
    ensures spare { OnOk result (pool.old.spare ≤ pool.new.spare + 1) }
    ensures wanted { OnErr result (WantsMemory donor.0 id (Insert document) pool.old pool.new) }
{
    pool.reserve(1)?;
    Ok(pool.insert(donor, id, document))
}
