//! Documents, changes and chunk maps that several tests use.

use resh_chunks::{Bound, ChunkMap, ChunkRow, KeyPattern};
use resh_value::{Change, Document, Names, NoMemory, Sequence, ShardId, Value, Words};
use std::alloc::Global;
use std::test::Fail;

/// A document with a number under `_id` and one under another name.
pub(crate) fn document(
    alloc: Global,
    id: i64,
    name: &str,
    value: i64,
) -> Result<Document, NoMemory> {
    let mut document = Document::new(alloc);
    document.put(Words::of(alloc, "_id")?, Value::Int(id))?;
    document.put(Words::of(alloc, name)?, Value::Int(value))?;
    Ok(document)
}

/// A change that assigns a number under one name.
pub(crate) fn change(alloc: Global, name: &str, value: i64) -> Result<Change, Fail> {
    let mut assign = Document::new(alloc);
    assign.put(Words::of(alloc, name)?, Value::Int(value))?;
    match Change::new(assign, Names::new(alloc)) {
        Some(change) => Ok(change),
        None => Err(Fail::from("no change")),
    }
}

/// The number that a document has under `n`; -1 where there is none.
pub(crate) fn number(document: Option<&Document>) -> i64 {
    match document.and_then(|document| document.get_by("n")) {
        Some(Value::Int(n)) => *n,
        _ => -1,
    }
}

/// The number that an `_id` is; none where it isn't one.
pub(crate) fn number_of(id: Option<&Value>) -> Option<i64> {
    match id {
        Some(Value::Int(number)) => Some(*number),
        _ => None,
    }
}

/// The texts of documents, one behind the other.
pub(crate) fn texts(alloc: Global, documents: &[Document]) -> Result<String, NoMemory> {
    let mut texts = String::new(alloc);
    for document in documents {
        texts.push_str(document.text(alloc)?.as_str())?;
    }
    Ok(texts)
}

fn bound(alloc: Global, at: i64) -> Result<Bound, Fail> {
    let mut key = Sequence::new(alloc);
    key.push(Value::Int(at))?;
    Ok(Bound::At(key))
}

fn row(min: Bound, max: Bound, shard: u32) -> ChunkRow {
    ChunkRow {
        min,
        max,
        shard: ShardId(shard),
    }
}

/// By `x`: below 10 on shard 0, below 20 on shard 1, and the rest on shard 2.
pub(crate) fn three_shards(alloc: Global) -> Result<ChunkMap, Fail> {
    let mut names = Names::new(alloc);
    names.push(Words::of(alloc, "x")?)?;
    let pattern = KeyPattern::new(names)?;
    let mut rows = Vec::new(alloc);
    rows.push(row(Bound::Min, bound(alloc, 10)?, 0))?;
    rows.push(row(bound(alloc, 10)?, bound(alloc, 20)?, 1))?;
    rows.push(row(bound(alloc, 20)?, Bound::Max, 2))?;
    Ok(ChunkMap::new(pattern, rows, 3)?)
}
