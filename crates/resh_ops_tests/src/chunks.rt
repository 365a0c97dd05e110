//! What comes of chunk maps.

use crate::answers::{document_of, json_at, number_at};
use resh_chunks::{Bound, ChunkMap, ChunkRow, KeyPattern};
use resh_value::{Names, Sequence, ShardId, Value, Words};
use serde_json::Value as Json;
use std::alloc::Global;
use std::test::Fail;

/// Names that are parted by spaces.
fn names_of(alloc: Global, text: &str) -> Result<Names, Fail> {
    let mut names = Sequence::new(alloc);
    for name in text.split_whitespace() {
        names.push(Words::of(alloc, name)?)?;
    }
    Ok(names)
}

pub(crate) fn pattern_answer(alloc: Global, names: &str) -> Result<String, Fail> {
    match KeyPattern::new(names_of(alloc, names)?) {
        Ok(_) => Ok(String::from_str(alloc, "a pattern")?),
        Err(fault) => Ok(format!(in alloc; "{fault:?}")?),
    }
}

/// `"min"`, `"max"` or a key's values.
fn bound_of(alloc: Global, json: &Json) -> Result<Bound, Fail> {
    match json.as_str() {
        Some("max") => return Ok(Bound::Max),
        Some(_) => return Ok(Bound::Min),
        None => {}
    }
    match Value::from_json(alloc, json, &Words::of(alloc, "")?) {
        Ok(Value::List(key)) => Ok(Bound::At(key)),
        _ => Err(Fail::from("no bound")),
    }
}

fn rows_of(alloc: Global, json: &Json) -> Result<Vec<ChunkRow>, Fail> {
    let mut rows = Vec::new(alloc);
    for row in json.as_array().ok_or("rows")? {
        rows.push(ChunkRow {
            min: bound_of(alloc, json_at(row, 0))?,
            max: bound_of(alloc, json_at(row, 1))?,
            shard: ShardId(number_at(row, 2, 0)),
        })?;
    }
    Ok(rows)
}

fn owners(alloc: Global, map: &ChunkMap, documents: &Json) -> Result<String, Fail> {
    let mut text = String::new(alloc);
    for json in documents.as_array().ok_or("documents")? {
        let owner = map.owner_of(&document_of(alloc, json)?).0;
        write!(text, "{owner} ")?;
    }
    Ok(text)
}

pub(crate) fn chunks_answer(alloc: Global, rows: &Json, documents: &Json) -> Result<String, Fail> {
    let pattern = KeyPattern::new(names_of(alloc, "x y")?)?;
    match ChunkMap::new(pattern, rows_of(alloc, rows)?, 3) {
        Ok(map) => owners(alloc, &map.copy()?, documents),
        Err(fault) => Ok(format!(in alloc; "{fault:?}")?),
    }
}
