//! Entries of several donors by the rules.

use crate::examples::{change, document, number_of, texts, three_shards};
use resh_oplog::What;
use resh_rules::{Pool, Rule};
use resh_value::{Document, NoMemory, ShardId, Value};
use std::alloc::Global;
use std::test::Fail;

#[derive(Drop, Clone, Copy)]
enum Kind {
    Insert { x: i64 },
    Update,
    Delete,
}

fn unfit() -> Fail {
    Fail::from("it doesn't fit")
}

fn insert(pool: &mut Pool, donor: u32, id: i64, document: Document) -> Result<Rule, Fail> {
    let what = What::Insert(document.copy()?);
    let id = Value::Int(id);
    pool.reserve(1)?;
    if !pool.fits(ShardId(donor), &id, &what) {
        return Err(unfit());
    }
    Ok(pool.insert(ShardId(donor), id, document))
}

fn update(alloc: Global, pool: &mut Pool, donor: u32, id: i64) -> Result<Rule, Fail> {
    let change = change(alloc, "n", 5)?;
    let what = What::Update {
        id: Value::Int(id),
        change: change.copy(alloc)?,
    };
    let id = Value::Int(id);
    if !pool.fits(ShardId(donor), &id, &what) {
        return Err(unfit());
    }
    Ok(pool.update(ShardId(donor), &id, &change)?)
}

fn delete(pool: &mut Pool, donor: u32, id: i64) -> Result<Rule, Fail> {
    let what = What::Delete { id: Value::Int(id) };
    let id = Value::Int(id);
    if !pool.fits(ShardId(donor), &id, &what) {
        return Err(unfit());
    }
    Ok(pool.delete(ShardId(donor), &id))
}

fn give(alloc: Global, pool: &mut Pool, donor: u32, kind: Kind, id: i64) -> Result<Rule, Fail> {
    match kind {
        Kind::Insert { x } => insert(pool, donor, id, document(alloc, id, "x", x)?),
        Kind::Update => update(alloc, pool, donor, id),
        Kind::Delete => delete(pool, donor, id),
    }
}

/// Donors and their entries, the `_id`, the rule's number, and the donor whose document was taken.
const STEPS: [(u32, Kind, i64, u8, Option<u32>); 11] = [
    (0, Kind::Insert { x: 1 }, 1, 2, None),
    (0, Kind::Insert { x: 2 }, 1, 3, None),
    (1, Kind::Insert { x: 11 }, 1, 4, None),
    (2, Kind::Update, 1, 3, None),
    (0, Kind::Update, 2, 2, None),
    (1, Kind::Update, 1, 1, None),
    (2, Kind::Delete, 1, 3, None),
    (0, Kind::Delete, 2, 2, None),
    (0, Kind::Delete, 1, 4, Some(1)),
    (0, Kind::Insert { x: 1 }, 1, 4, None),
    (0, Kind::Delete, 1, 1, None),
];

/// The first rule that isn't its row's.
fn wrong_rule(alloc: Global, pool: &mut Pool) -> Result<Option<Rule>, Fail> {
    for (donor, kind, id, number, took) in STEPS {
        let rule = give(alloc, pool, donor, kind, id)?;
        if (rule.number, rule.took) != (number, took.map(ShardId)) {
            return Ok(Some(rule));
        }
    }
    Ok(None)
}

/// The first wrong rule, how many documents wait at the end, and the texts of the ones handed out.
fn three_donors(alloc: Global) -> Result<(Option<Rule>, u64, String), Fail> {
    let mut pool = Pool::new(alloc, three_shards(alloc)?, 3)?;
    let wrong = wrong_rule(alloc, &mut pool)?;
    let stashed = pool.stashed();
    Ok((wrong, stashed, finished(alloc, &mut pool)?))
}

fn finished(alloc: Global, pool: &mut Pool) -> Result<String, NoMemory> {
    texts(alloc, pool.finish()?.as_slice())
}

#[test]
fn entries_of_three_donors(rt: HostRuntime) -> Result<(), Fail> {
    let (wrong, stashed, texts) = three_donors(rt.alloc())?;
    assert_eq!(rt;
        (wrong, stashed, texts.as_str()),
        (None, 0, r#"{"_id":1,"n":5,"x":11}"#)
    );
    Ok(())
}

/// Inserts of documents under the `_id` 1: the donor, the document's own `_id` and `x`, and whether it fits.
const INSERTS: [(u32, i64, i64, bool); 4] = [
    (0, 1, 1, true),
    (0, 2, 1, false),
    (0, 1, 11, false),
    (2, 1, 21, false),
];

/// The names that updates change, and whether these fit.
const UPDATES: [(&str, bool); 3] = [("n", true), ("x", false), ("_id", false)];

fn insertion(alloc: Global, id: i64, x: i64) -> Result<What, NoMemory> {
    Ok(What::Insert(document(alloc, id, "x", x)?))
}

fn fits_update(alloc: Global, pool: &Pool, name: &str) -> Result<bool, Fail> {
    let what = What::Update {
        id: Value::Int(1),
        change: change(alloc, name, 3)?,
    };
    Ok(pool.fits(ShardId(1), &Value::Int(1), &what))
}

/// The donor, the `_id` and `x` of the first insert that wrongly fits or doesn't.
fn wrong_insert(alloc: Global, pool: &Pool) -> Result<Option<(u32, i64, i64)>, NoMemory> {
    for (donor, id, x, fits) in INSERTS {
        if pool.fits(ShardId(donor), &Value::Int(1), &insertion(alloc, id, x)?) != fits {
            return Ok(Some((donor, id, x)));
        }
    }
    Ok(None)
}

/// The name of the first update that wrongly fits or doesn't.
fn wrong_update(alloc: Global, pool: &Pool) -> Result<Option<&'static str>, Fail> {
    for (name, fits) in UPDATES {
        if fits_update(alloc, pool, name)? != fits {
            return Ok(Some(name));
        }
    }
    Ok(None)
}

#[test]
fn what_does_not_fit(rt: HostRuntime) -> Result<(), Fail> {
    let alloc = rt.alloc();
    let pool = Pool::new(alloc, three_shards(alloc)?, 2)?;
    let last = pool.fits(ShardId(1), &Value::Int(1), &What::Final);
    assert_eq!(rt;
        (
            wrong_insert(alloc, &pool)?,
            wrong_update(alloc, &pool)?,
            last
        ),
        (None, None, false)
    );
    Ok(())
}

/// How many documents wait, and the least `_id` of them.
fn waiting(pool: &Pool) -> (u64, Option<i64>) {
    (pool.stashed(), number_of(pool.first_stashed()))
}

/// Gives a pool two documents of one `_id`.
fn fill(alloc: Global, pool: &mut Pool) -> Result<(), Fail> {
    pool.reserve(3)?;
    insert(pool, 0, 7, document(alloc, 7, "x", 1)?)?;
    insert(pool, 1, 7, document(alloc, 7, "x", 11)?)?;
    Ok(())
}

/// What waits in a new pool, in a filled one and in a cleared one, and how many documents the last hands out.
fn cleared(alloc: Global) -> Result<([(u64, Option<i64>); 3], u64), Fail> {
    let mut pool = Pool::new(alloc, three_shards(alloc)?, 2)?;
    let new = waiting(&pool);
    fill(alloc, &mut pool)?;
    let filled = waiting(&pool);
    pool.clear();
    Ok(([new, filled, waiting(&pool)], pool.finish()?.len()))
}

#[test]
fn a_pool_of_nothing(rt: HostRuntime) -> Result<(), Fail> {
    assert_eq!(rt;
        cleared(rt.alloc())?,
        ([(0, None), (1, Some(7)), (0, None)], 0)
    );
    Ok(())
}
