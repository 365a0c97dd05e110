//! Logs by donor and recipient.

use crate::examples::{change, document, number_of};
use resh_oplog::{Entry, Log, Piece, What};
use resh_stamp::{Mark, Stamp};
use resh_value::{Document, NoMemory, ShardId, Value};
use std::alloc::Global;
use std::test::Fail;

fn entry(alloc: Global, time: u64, to: Option<u32>) -> Result<Entry, NoMemory> {
    Ok(Entry {
        stamp: Stamp { time, node: 1 },
        part: 0,
        donor: ShardId(0),
        to: to.map(ShardId),
        what: What::Insert(document(alloc, 7, "n", 1)?),
    })
}

/// Puts an entry at the end; false where it doesn't fit there.
fn put(alloc: Global, log: &mut Log, time: u64, to: Option<u32>) -> Result<bool, NoMemory> {
    let entry = entry(alloc, time, to)?;
    if !log.fits(&entry) {
        return Ok(false);
    }
    log.push(entry)?;
    Ok(true)
}

/// The times of entries, whom they are destined to, and whether they fit behind the ones before them.
const ENTRIES: [(u64, Option<u32>, bool); 7] = [
    (2, Some(1), true),
    (4, None, true),
    (6, Some(0), true),
    (8, Some(1), true),
    (8, Some(1), false),
    (10, Some(1), true),
    (10, None, false),
];

/// The time of the first entry that isn't taken as it should be.
fn wrong_entry(alloc: Global, log: &mut Log) -> Result<Option<u64>, NoMemory> {
    for (time, to, fits) in ENTRIES {
        if put(alloc, log, time, to)? != fits {
            return Ok(Some(time));
        }
    }
    Ok(None)
}

/// The number of entries above a mark that shard 1 is given.
fn count_after(log: &Log, mark: Option<Mark>, most: u32) -> Result<u64, NoMemory> {
    Ok(log.after(mark, ShardId(1), most)?.len())
}

fn first_mark(log: &Log) -> Result<Option<Mark>, NoMemory> {
    Ok(log.after(None, ShardId(1), 1)?.get(0).map(Entry::mark))
}

/// How many entries shard 1 is given: of all, of one, and of those above the first.
fn counts(log: &Log) -> Result<[u64; 3], NoMemory> {
    let mark = first_mark(log)?;
    Ok([
        count_after(log, None, 9)?,
        count_after(log, None, 1)?,
        count_after(log, mark, 9)?,
    ])
}

/// Takes the last two entries of five back.
fn undo(log: &mut Log) {
    if log.len() == 5 {
        log.undo(2);
    }
}

/// The entry that was taken wrongly, the log's lengths, and its counts before and after two entries are taken back.
fn log_told(alloc: Global) -> Result<(Option<u64>, [u64; 2], [[u64; 3]; 2]), NoMemory> {
    let mut log = Log::new(alloc, ShardId(0));
    let wrong = wrong_entry(alloc, &mut log)?;
    let lengths = [log.len(), log.entries().len() as u64];
    let before = counts(&log)?;
    undo(&mut log);
    Ok((wrong, lengths, [before, counts(&log)?]))
}

#[test]
fn entries_are_read_past_a_mark(rt: HostRuntime) -> Result<(), Fail> {
    assert_eq!(rt;
        log_told(rt.alloc())?,
        (None, [5, 5], [[3, 1, 2], [1, 1, 0]])
    );
    Ok(())
}

#[derive(Drop, Clone, Copy)]
enum Kind {
    Insert,
    Delete,
    Update,
    Nameless,
    Final,
}

fn what(alloc: Global, kind: Kind) -> Result<What, Fail> {
    match kind {
        Kind::Insert => Ok(What::Insert(document(alloc, 3, "n", 1)?)),
        Kind::Delete => Ok(What::Delete { id: Value::Int(3) }),
        Kind::Update => Ok(What::Update {
            id: Value::Int(3),
            change: change(alloc, "n", 2)?,
        }),
        Kind::Nameless => Ok(What::Insert(Document::new(alloc))),
        Kind::Final => Ok(What::Final),
    }
}

fn piece(what: What) -> Piece {
    Piece {
        donor: ShardId(1),
        place: 2,
        position: 1,
        time: 4,
        id: Value::Int(3),
        what,
    }
}

/// The `_id` of a piece's content and whether the content is whole; none where the piece's numbers are others.
fn told(piece: &Piece) -> Option<(Option<i64>, bool)> {
    if (piece.donor, piece.place, piece.position, piece.time) != (ShardId(1), 2, 1, 4) {
        return None;
    }
    Some((number_of(piece.what.id()), piece.what.is_whole()))
}

/// What a content's `_id` is, whether it is whole, and the same of the copy of a piece of it.
fn copied(alloc: Global, kind: Kind) -> Result<[Option<(Option<i64>, bool)>; 2], Fail> {
    let piece = piece(what(alloc, kind)?);
    let copy = piece.copy(alloc)?;
    Ok([told(&piece), told(&copy)])
}

const CONTENTS: [(Kind, Option<i64>, bool); 5] = [
    (Kind::Insert, Some(3), true),
    (Kind::Delete, Some(3), true),
    (Kind::Update, Some(3), true),
    (Kind::Nameless, None, false),
    (Kind::Final, None, true),
];

#[test]
fn contents_are_whole_and_copied(rt: HostRuntime) -> Result<(), Fail> {
    for (kind, id, whole) in CONTENTS {
        assert_eq!(rt; copied(rt.alloc(), kind)?, [Some((id, whole)); 2]);
    }
    Ok(())
}
