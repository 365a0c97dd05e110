//! What comes of filters and updates.

use crate::chunk_rows::{CHUNKS, PATTERNS};
use crate::chunks::{chunks_answer, pattern_answer};
use crate::faults::{change_fault_text, filter_fault_text, update_fault_text};
use crate::rows::{
    BAD, CONFLICTS, EXAMPLE, FILTERS, FIRST, LIMITS, MATCHES, NO_VALUES, OPERATORS, UPDATES,
};
use resh_filter::Filter;
use resh_ops::Update;
use resh_value::{Change, Copied, Document, Words};
use serde_json::Value as Json;
use std::alloc::Global;
use std::test::Fail;

/// What a row is of.
#[derive(Clone, Copy)]
enum Kind {
    Update,
    Filter,
    Match,
    Pattern,
    Chunks,
}

pub(crate) fn json_at(row: &Json, place: usize) -> &Json {
    row.get(place).unwrap_or(row)
}

pub(crate) fn text_at(row: &Json, place: usize) -> &str {
    row.get(place).and_then(Json::as_str).unwrap_or("")
}

pub(crate) fn number_at(row: &Json, place: usize, other: u32) -> u32 {
    let number = row
        .get(place)
        .and_then(Json::as_u64)
        .unwrap_or(u64::from(other));
    u32::try_from(number).unwrap_or(other)
}

pub(crate) fn document_of(alloc: Global, json: &Json) -> Result<Document, Fail> {
    let read = Document::from_json(alloc, json, &Words::of(alloc, "")?);
    Ok(read.ok().ok_or("a document")?)
}

/// What is assigned, and each name that is unset.
fn change_text(alloc: Global, change: &Change) -> Result<String, Fail> {
    let mut text = String::from_str(alloc, change.assign.text(alloc)?.as_str())?;
    for name in change.unset.as_slice() {
        text.push_str(" ")?;
        text.push_str(name.as_str())?;
    }
    Ok(text)
}

/// What comes of a copy of an update on `EXAMPLE`.
fn changed(alloc: Global, update: &Update, limit: u32) -> Result<String, Fail> {
    let document = document_of(alloc, &Json::from_str(alloc, EXAMPLE)?)?;
    match update.copied(alloc)?.change(&document, limit) {
        Ok(change) => change_text(alloc, &change),
        Err(fault) => Ok(change_fault_text(alloc, &fault.copy()?)?),
    }
}

fn update_answer(alloc: Global, json: &Json, limit: u32) -> Result<String, Fail> {
    match Update::read(alloc, json, &Words::of(alloc, "/with")?) {
        Ok(update) => changed(alloc, &update, limit),
        Err(fault) => Ok(update_fault_text(alloc, &fault)?),
    }
}

/// The pairs of a filter's copy.
fn filter_text(alloc: Global, filter: &Filter) -> Result<String, Fail> {
    let text = filter.copied(alloc)?.fields().text(alloc)?;
    Ok(String::from_str(alloc, text.as_str())?)
}

fn filter_answer(alloc: Global, json: &Json) -> Result<String, Fail> {
    match Filter::read(alloc, json, &Words::of(alloc, "/p")?) {
        Ok(filter) => filter_text(alloc, &filter),
        Err(fault) => Ok(filter_fault_text(alloc, &fault)?),
    }
}

fn match_answer(alloc: Global, filter: &Json, document: &Json) -> Result<String, Fail> {
    let document = document_of(alloc, document)?;
    let filter = Filter::read(alloc, filter, &Words::of(alloc, "")?);
    let matches = filter.ok().ok_or("a filter")?.matches(&document);
    Ok(String::from_str(alloc, if matches { "yes" } else { "no" })?)
}

fn answer(alloc: Global, kind: Kind, row: &Json) -> Result<String, Fail> {
    match kind {
        Kind::Update => update_answer(alloc, json_at(row, 0), number_at(row, 2, 1_000)),
        Kind::Filter => filter_answer(alloc, json_at(row, 0)),
        Kind::Match => match_answer(alloc, json_at(row, 0), json_at(row, 1)),
        Kind::Pattern => pattern_answer(alloc, text_at(row, 0)),
        Kind::Chunks => chunks_answer(alloc, json_at(row, 0), json_at(row, 1)),
    }
}

/// The first answer that isn't the one at this place of its row, or nothing.
fn wrong_answer(alloc: Global, kind: Kind, rows: &str, place: usize) -> Result<String, Fail> {
    let rows = Json::from_str(alloc, rows)?;
    for row in rows.as_array().ok_or("rows")? {
        let got = answer(alloc, kind, row)?;
        if got.as_str() != text_at(row, place) {
            return Ok(got);
        }
    }
    Ok(String::new(alloc))
}

#[test]
fn each_row_has_its_answer(rt: HostRuntime) -> Result<(), Fail> {
    let cases = [
        (Kind::Update, OPERATORS, 1),
        (Kind::Update, UPDATES, 1),
        (Kind::Update, LIMITS, 1),
        (Kind::Update, BAD, 1),
        (Kind::Update, NO_VALUES, 1),
        (Kind::Update, FIRST, 1),
        (Kind::Update, CONFLICTS, 1),
        (Kind::Filter, FILTERS, 1),
        (Kind::Match, MATCHES, 2),
        (Kind::Pattern, PATTERNS, 1),
        (Kind::Chunks, CHUNKS, 2),
    ];
    for (kind, rows, place) in cases {
        assert_eq!(rt; wrong_answer(rt.alloc(), kind, rows, place)?.as_str(), "");
    }
    Ok(())
}
