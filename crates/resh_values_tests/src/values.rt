//! Values from JSON and back, their copies, and changes of documents.

use crate::rows::{CHANGES, DOCUMENTS, FAULTS, LEVELS, TEXTS};
use resh_value::{
    Change, Copied, Document, Names, NoMemory, Sequence, ShardId, Value, ValueFault, Words,
    append_quoted, path_to_name, path_to_place,
};
use serde_json::Value as Json;
use std::alloc::{AllocError, Global};
use std::test::Fail;

#[derive(Clone, Copy)]
enum Kind {
    Value,
    Document,
    Change,
}

fn fault_text(alloc: Global, fault: &ValueFault) -> Result<String, AllocError> {
    match fault {
        ValueFault::NotWhole { path } => format!(in alloc; "not whole {}", path.as_str()),
        ValueFault::BadTag { path } => format!(in alloc; "bad tag {}", path.as_str()),
        ValueFault::TooDeep { path } => format!(in alloc; "too deep {}", path.as_str()),
        ValueFault::DollarName { path } => format!(in alloc; "dollar name {}", path.as_str()),
        ValueFault::NotDocument { path } => format!(in alloc; "not document {}", path.as_str()),
        ValueFault::NoMemory => String::from_str(alloc, "no memory"),
    }
}

fn value_answer(alloc: Global, json: &Json) -> Result<Words, Fail> {
    match Value::from_json(alloc, json, &Words::of(alloc, "/p")?) {
        Ok(value) => Ok(value.copied(alloc)?.text(alloc)?),
        Err(fault) => Ok(Words::from_string(fault_text(alloc, &fault)?)),
    }
}

/// The text, the depth and the `_id` of a document's copy.
fn document_text(alloc: Global, document: &Document) -> Result<Words, Fail> {
    let id = document.copy_id(alloc)?.text(alloc)?;
    let text = document.copied(alloc)?.text(alloc)?;
    let depth = document.depth();
    let text = format!(in alloc; "{} {depth} {}", text.as_str(), id.as_str())?;
    Ok(Words::from_string(text))
}

fn document_answer(alloc: Global, json: &Json) -> Result<Words, Fail> {
    match Document::from_json(alloc, json, &Words::of(alloc, "/p")?) {
        Ok(document) => document_text(alloc, &document),
        Err(fault) => Ok(Words::from_string(fault_text(alloc, &fault)?)),
    }
}

fn document_of(alloc: Global, json: &Json) -> Result<Document, Fail> {
    let read = Document::from_json(alloc, json, &Words::of(alloc, "")?);
    Ok(read.ok().ok_or("a document")?)
}

/// Names that are parted by spaces.
fn names_of(alloc: Global, text: &str) -> Result<Names, Fail> {
    let mut names = Sequence::new(alloc);
    for name in text.split_whitespace() {
        names.push(Words::of(alloc, name)?)?;
    }
    Ok(names)
}

fn change_answer(alloc: Global, assign: Document, unset: Names) -> Result<Words, Fail> {
    let mut document = document_of(alloc, &Json::from_str(alloc, r#"{"a":1,"b":1,"c":1}"#)?)?;
    match Change::new(assign, unset) {
        Some(change) => {
            document.apply_change(&change.copied(alloc)?)?;
            Ok(document.text(alloc)?)
        }
        None => Ok(Words::of(alloc, "none")?),
    }
}

fn text_at(row: &Json, place: usize) -> &str {
    row.get(place).and_then(Json::as_str).unwrap_or("")
}

fn answer(alloc: Global, kind: Kind, row: &Json) -> Result<Words, Fail> {
    let json = row.get(0usize).unwrap_or(row);
    match kind {
        Kind::Value => value_answer(alloc, json),
        Kind::Document => document_answer(alloc, json),
        Kind::Change => {
            let assign = document_of(alloc, json)?;
            change_answer(alloc, assign, names_of(alloc, text_at(row, 1))?)
        }
    }
}

/// The first answer that isn't the one at this place of its row, or nothing.
fn wrong_answer(alloc: Global, kind: Kind, rows: &str, place: usize) -> Result<Words, Fail> {
    let rows = Json::from_str(alloc, rows)?;
    for row in rows.as_array().ok_or("rows")? {
        let got = answer(alloc, kind, row)?;
        if !got.is(text_at(row, place)) {
            return Ok(got);
        }
    }
    Ok(Words::of(alloc, "")?)
}

#[test]
fn each_row_has_its_answer(rt: HostRuntime) -> Result<(), Fail> {
    let cases = [
        (Kind::Value, TEXTS, 1),
        (Kind::Value, LEVELS, 1),
        (Kind::Value, FAULTS, 1),
        (Kind::Document, DOCUMENTS, 1),
        (Kind::Change, CHANGES, 2),
    ];
    for (kind, rows, place) in cases {
        assert_eq!(rt; wrong_answer(rt.alloc(), kind, rows, place)?.as_str(), "");
    }
    Ok(())
}

/// A path to a name and a place, and behind it a document's text and a text in quotes.
fn written(alloc: Global, name: &str) -> Result<Vec<u8>, NoMemory> {
    let path = path_to_name(alloc, &Words::of(alloc, "/a")?, name)?;
    let path = path_to_place(alloc, &path, u64::MAX)?;
    let bytes = Document::new(alloc).append_text(path.as_bytes().to_vec(alloc)?)?;
    append_quoted(bytes, "a\"\n")
}

#[test]
fn texts_come_behind_what_is_there(rt: HostRuntime) -> Result<(), Fail> {
    let bytes = written(rt.alloc(), "~x/é")?;
    assert_eq!(rt;
        bytes.as_slice(),
        "/a/~0x~1é/18446744073709551615{}\"a\\\"\\n\"".as_bytes()
    );
    Ok(())
}

#[test]
fn options_and_numbers_are_copied(rt: HostRuntime) -> Result<(), Fail> {
    let alloc = rt.alloc();
    let unsigned = (5u32.copied(alloc)?, 6u64.copied(alloc)?);
    let others = ((-7i64).copied(alloc)?, true.copied(alloc)?);
    let shard = Copied::copied(&Some(ShardId(3)), alloc)?;
    assert_eq!(rt;
        (unsigned, others, shard),
        ((5, 6), (-7, true), Some(ShardId(3)))
    );
    Ok(())
}
