//! Documents by time.

ghost use Rattle.std.specs.Prelude.{◌≡◌, true};
ghost use Rattle.std.specs.List.{All};
ghost use Rattle.resh_value.specs.Whole.{is_whole};

use crate::examples::{document, number};
use resh_value::{Document, Documents, NoMemory, Value};
use resh_versions::{Versions, Walk};
use std::alloc::Global;
use std::test::Fail;

fn are_whole(documents: &[Document]) -> bool
    ensures { result ≡ true → All (λ document. is_whole document ≡ true) documents.now }
{
    documents.iter().all(|document| document.is_whole())
}

// Puts a document with an `_id` and a number.
fn put(versions: &mut Versions, alloc: Global, time: u64, id: i64, n: i64) -> Result<(), NoMemory> {
    let document = document(alloc, id, "n", n)?;
    if document.is_whole() {
        versions.put(time, document)?;
    }
    Ok(())
}

// The number that stands now under an `_id`; -1 where nothing does.
fn number_now(versions: &Versions, id: i64) -> i64 {
    number(versions.now(&Value::Int(id)))
}

// The number that stood at a time under an `_id`; -1 where nothing did, -3 below the floor.
fn number_at(versions: &Versions, time: u64, id: i64) -> i64 {
    if time < versions.floor() {
        return -3;
    }
    number(versions.at(time, &Value::Int(id)))
}

fn put_twice(alloc: Global, versions: &mut Versions) -> Result<(), NoMemory> {
    put(versions, alloc, 1, 1, 1)?;
    put(versions, alloc, 3, 1, 2)
}

// One `_id` put at 1 and 3 and removed at 5.
fn example(alloc: Global) -> Result<Versions, NoMemory> {
    let mut versions = Versions::new(alloc);
    put_twice(alloc, &mut versions)?;
    versions.remove(5, &Value::Int(1))?;
    Ok(versions)
}

/// Times, and the number that stood then.
const READINGS: [(u64, i64); 7] = [(0, -1), (1, 1), (2, 1), (3, 2), (4, 2), (5, -1), (9, -1)];

/// The first time at which another number stood.
fn wrong_time(versions: &Versions) -> Option<u64> {
    for (time, n) in READINGS {
        if number_at(versions, time, 1) != n {
            return Some(time);
        }
    }
    None
}

#[test]
fn reads_what_stood(rt: HostRuntime) -> Result<(), Fail> {
    let versions = example(rt.alloc())?;
    assert_eq!(rt;
        (
            versions.floor(),
            wrong_time(&versions),
            number_now(&versions, 1)
        ),
        (0, None, -1)
    );
    Ok(())
}

/// The floor, and what stood at 3, 4 and 5.
fn readings(versions: &Versions) -> (u64, [i64; 3]) {
    let numbers = [
        number_at(versions, 3, 1),
        number_at(versions, 4, 1),
        number_at(versions, 5, 1),
    ];
    (versions.floor(), numbers)
}

/// The readings after each of two prunings.
fn pruned(versions: &mut Versions) -> [(u64, [i64; 3]); 2] {
    versions.prune(4);
    let first = readings(versions);
    versions.prune(2);
    [first, readings(versions)]
}

#[test]
fn prunes_up_to_a_time(rt: HostRuntime) -> Result<(), Fail> {
    let mut versions = example(rt.alloc())?;
    assert_eq!(rt; pruned(&mut versions), [(4, [-3, 2, -1]); 2]);
    Ok(())
}

/// What stands after each of two puts is taken back.
fn taken_back(versions: &mut Versions) -> [i64; 2] {
    versions.undo_put(&Value::Int(1));
    let first = number_now(versions, 1);
    versions.undo_put(&Value::Int(1));
    [first, number_now(versions, 1)]
}

#[test]
fn takes_a_put_back(rt: HostRuntime) -> Result<(), Fail> {
    let mut versions = Versions::new(rt.alloc());
    put_twice(rt.alloc(), &mut versions)?;
    assert_eq!(rt; taken_back(&mut versions), [1, -1]);
    Ok(())
}

/// Whether something stood where it is removed: twice where nothing does, and where a document does.
fn removals(alloc: Global, versions: &mut Versions) -> Result<[bool; 3], NoMemory> {
    let first = versions.remove(6, &Value::Int(1))?;
    let second = versions.remove(6, &Value::Int(2))?;
    put(versions, alloc, 7, 2, 5)?;
    Ok([first, second, versions.remove(8, &Value::Int(2))?])
}

#[test]
fn removes_what_stands(rt: HostRuntime) -> Result<(), Fail> {
    let mut versions = example(rt.alloc())?;
    let removals = removals(rt.alloc(), &mut versions)?;
    assert_eq!(rt;
        (removals, number_at(&versions, 7, 2)),
        ([false, false, true], 5)
    );
    Ok(())
}

// Puts the number of a document and a blank behind a text.
fn push_number(alloc: Global, text: &mut String, document: &Document) -> Result<(), NoMemory> {
    text.push_str(format!(in alloc; "{} ", number(Some(document)))?.as_str())?;
    Ok(())
}

// The numbers of documents, each with a blank behind it.
fn numbers_of(alloc: Global, documents: &[Document]) -> Result<String, NoMemory> {
    let mut text = String::new(alloc);
    for document in documents {
        push_number(alloc, &mut text, document)?;
    }
    Ok(text)
}

fn walked(alloc: Global, walk: Walk<'_>) -> Result<String, NoMemory> {
    let mut text = String::new(alloc);
    for document in walk {
        push_number(alloc, &mut text, document)?;
    }
    Ok(text)
}

// Puts four documents in no order; one is removed at 5.
fn put_four(alloc: Global, versions: &mut Versions) -> Result<(), NoMemory> {
    for (time, id) in [(1, 3), (2, 1), (3, 4), (4, 2)] {
        put(versions, alloc, time, id, id)?;
    }
    versions.remove(5, &Value::Int(3))?;
    Ok(())
}

fn four(alloc: Global) -> Result<Versions, NoMemory> {
    let mut versions = Versions::new(alloc);
    put_four(alloc, &mut versions)?;
    Ok(versions)
}

/// Times, the `_id`s to go on above, the most documents, and the numbers of the documents.
const SCANS: [(u64, Option<i64>, u32, &str); 5] = [
    (4, None, 9, "1 2 3 4 "),
    (4, None, 2, "1 2 "),
    (3, None, 9, "1 3 4 "),
    (3, Some(2), 9, "3 4 "),
    (5, Some(2), 9, "4 "),
];

fn scanned(
    alloc: Global,
    versions: &Versions,
    time: u64,
    after: Option<i64>,
    most: u32,
) -> Result<String, NoMemory> {
    if time < versions.floor() {
        return Ok(String::new(alloc));
    }
    let after = after.map(Value::Int);
    let documents = versions.scan_at(time, after.as_ref(), most)?;
    numbers_of(alloc, documents.as_slice())
}

/// The first scan that isn't its row's; `right` where all are.
fn wrong_scan(alloc: Global, versions: &Versions) -> Result<String, NoMemory> {
    for (time, after, most, wanted) in SCANS {
        let got = scanned(alloc, versions, time, after, most)?;
        if got.as_str() != wanted {
            return Ok(got);
        }
    }
    Ok(String::from_str(alloc, "right")?)
}

#[test]
fn scans_by_id(rt: HostRuntime) -> Result<(), Fail> {
    let versions = four(rt.alloc())?;
    assert_eq!(rt; wrong_scan(rt.alloc(), &versions)?.as_str(), "right");
    Ok(())
}

/// Times, or none for now, the `_id`s to go on above, and the numbers of the documents.
const WALKS: [(Option<u64>, Option<i64>, &str); 4] = [
    (Some(4), None, "1 2 3 4 "),
    (Some(4), Some(2), "3 4 "),
    (None, None, "1 2 4 "),
    (None, Some(2), "4 "),
];

fn walked_from(
    alloc: Global,
    versions: &Versions,
    time: Option<u64>,
    after: Option<&Value>,
) -> Result<String, NoMemory> {
    match time {
        None => walked(alloc, versions.walk_now(after)),
        Some(time) if versions.floor() <= time => walked(alloc, versions.walk_at(time, after)),
        Some(_) => Ok(String::new(alloc)),
    }
}

/// The first walk that isn't its row's; `right` where all are.
fn wrong_walk(alloc: Global, versions: &Versions) -> Result<String, NoMemory> {
    for (time, after, wanted) in WALKS {
        let after = after.map(Value::Int);
        let got = walked_from(alloc, versions, time, after.as_ref())?;
        if got.as_str() != wanted {
            return Ok(got);
        }
    }
    Ok(String::from_str(alloc, "right")?)
}

#[test]
fn walks_by_id(rt: HostRuntime) -> Result<(), Fail> {
    let versions = four(rt.alloc())?;
    assert_eq!(rt; wrong_walk(rt.alloc(), &versions)?.as_str(), "right");
    Ok(())
}

// Three documents, of which two have one `_id`.
fn three(alloc: Global) -> Result<Documents, Fail> {
    let mut documents = Documents::new(alloc);
    for (id, n) in [(2, 20), (1, 10), (2, 21)] {
        documents.push(document(alloc, id, "n", n)?)?;
    }
    Ok(documents)
}

// Versions of them from 6 on.
fn of_three(alloc: Global) -> Result<Versions, Fail> {
    let documents = three(alloc)?;
    if !are_whole(documents.as_slice()) {
        return Err(Fail::from("not whole"));
    }
    Ok(Versions::of_documents(alloc, 6, documents)?)
}

#[test]
fn the_last_of_an_id_stands(rt: HostRuntime) -> Result<(), Fail> {
    let versions = of_three(rt.alloc())?;
    let numbers = [number_at(&versions, 5, 1), number_at(&versions, 6, 2)];
    let walked = walked(rt.alloc(), versions.walk_now(None))?;
    assert_eq!(rt;
        (versions.floor(), numbers, walked.as_str()),
        (6, [-3, 21], "10 21 ")
    );
    Ok(())
}
