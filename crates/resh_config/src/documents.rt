//! Documents, each with an `_id` that no other on its shard has.

ghost use Rattle.std.specs.Bool.{OnTrue};
ghost use Rattle.std.specs.Prelude.{◌≡◌, ◌==◌, [], codes, IfOk};
ghost use Rattle.resh_value.specs.Lookup.{field_of};
ghost use Rattle.resh_value.specs.Order.{kind};
ghost use Rattle.resh_value.specs.Outcome.{Gives};
ghost use Rattle.resh_setup.specs.Documents.{is_id, first_same};
ghost use Rattle.resh_config.specs.Documents.{with_rules, document_in, IdsRise, IsBelow};
ghost use Rattle.resh_config.specs.ClusterFile.{documents_in, distinct_only};

use crate::faults::{Fault, in_value, no_id, over_limit, same_id};
use crate::lists::{ItemReader, list_in};
use crate::walk::FieldReader;
use resh_chunks::ChunkMap;
use resh_glance::{id, id_or, is_longer};
use resh_value::{Document, Documents, NoMemory, Value, WalkFault, compare};
use serde_json::Value as Json;
use std::alloc::Global;
use std::collections::BTreeSet;

/// So many documents there may be.
const MOST_DOCUMENTS: u64 = 100_000;
/// So many bytes a document's text may have.
const LONGEST_TEXT: u64 = 16_384;

/// Reads the documents of the collection, which go to their owners under a map.
#[derive(Drop)]
pub(crate) struct Collection<'a> {
    pub(crate) map: &'a ChunkMap,
}

impl FieldReader for Collection<'_> {
    type Content = Documents;

    ghost reads = { λ c. documents_in c.map.now };

    fn read(self, alloc: Global, json: &Json) -> Result<Documents, Fault> {
        match list_in(alloc, &mut DocumentReader, MOST_DOCUMENTS, json) {
            Ok(documents) => distinct_only(alloc, self.map, documents),
            Err(fault) => Err(fault),
        }
    }
}

fn distinct_only(alloc: Global, map: &ChunkMap, documents: Documents) -> Result<Documents, Fault>
    ensures { Gives WalkFault.NoMemory result (distinct_only (first_same map.now [] documents) documents) }
{
    match first_same(alloc, map, documents.as_slice()) {
        Ok(None) => Ok(documents),
        Ok(Some(row)) => Err(same_id(alloc, row)),
        Err(NoMemory) => Err(WalkFault::NoMemory),
    }
}

/// The first row whose shard and `_id` an earlier row has.
fn first_same(
    alloc: Global,
    map: &ChunkMap,
    documents: &[Document],
) -> Result<Option<u64>, NoMemory>
    ensures { IfOk result (λ row. row ≡ first_same map.now [] documents.now) }
{
    if ids_rise(documents) {
        return Ok(None);
    }
    first_taken(alloc, map, documents)
}

/// Whether each `_id` is above the one before, so that no two are the same.
fn ids_rise(documents: &[Document]) -> bool
    ensures { OnTrue result (IdsRise documents.now) }
{
    let mut rest = documents;
    while let [document, later @ ..] = rest {
        if !is_below(document, later) {
            return false;
        }
        rest = later;
    }
    true
}

fn is_below(document: &Document, later: &[Document]) -> bool
    ensures { OnTrue result (IsBelow document.now later.now) }
{
    let null = Value::Null;
    if let [next, ..] = later {
        return compare(id_or(document, &null), id_or(next, &null)).is_lt();
    }
    true
}

fn first_taken(
    alloc: Global,
    map: &ChunkMap,
    documents: &[Document],
) -> Result<Option<u64>, NoMemory>
    ensures { IfOk result (λ row. row ≡ first_same map.now [] documents.now) }
{
    let null = Value::Null;
    let mut taken = BTreeSet::new(alloc);
    let mut row = 0u64;
    let mut rest = documents;
    while let [document, later @ ..] = rest {
        let place = (map.owner_of(document).0, id_or(document, &null));
        if !taken.insert(place)? {
            return Ok(Some(row));
        }
        row += 1;
        rest = later;
    }
    Ok(None)
}

/// Reads documents.
#[derive(Drop)]
struct DocumentReader;

fn with_rules(alloc: Global, document: Document) -> Result<Document, Fault>
    ensures { Gives WalkFault.NoMemory result (with_rules document) }
{
    if !has_id(&document) {
        return Err(no_id(alloc));
    }
    match is_longer(alloc, &document, LONGEST_TEXT) {
        Ok(true) => Err(over_limit(alloc, LONGEST_TEXT)),
        Ok(false) => Ok(document),
        Err(NoMemory) => Err(WalkFault::NoMemory),
    }
}

impl ItemReader for DocumentReader {
    type Item = Document;

    ghost reads = { λ _. document_in };

    fn read(
        &mut self,
        alloc: Global,
        _before: &[Document],
        json: &Json,
    ) -> Result<Document, Fault> {
        match Document::walk(alloc, json) {
            Ok(document) => with_rules(alloc, document),
            Err(fault) => Err(in_value(fault)),
        }
    }
}

/// Reads a document that a client inserts.
#[derive(Drop)]
pub(crate) struct Inserted;

impl FieldReader for Inserted {
    type Content = Document;

    ghost reads = { λ _. document_in [] };

    fn read(self, alloc: Global, json: &Json) -> Result<Document, Fault> {
        DocumentReader.read(alloc, &[], json)
    }
}

fn has_id(document: &Document) -> bool
    ensures { result ≡ is_id (field_of document.now (codes "_id")) }
{
    match id(document) {
        Some(id) => !is_array(id),
        None => false,
    }
}

fn is_array(value: &Value) -> bool
    ensures { result ≡ (kind value.now == 4) }
{
    match value {
        Value::List(_) => true,
        _ => false,
    }
}
