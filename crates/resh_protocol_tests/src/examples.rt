//! A document, an entry and a log that the tests share.

use resh_oplog::{Entry, Log, What};
use resh_stamp::Stamp;
use resh_value::{Document, NoMemory, ShardId, Value, Words};
use std::alloc::Global;
use std::test::Fail;

pub(crate) fn document(alloc: Global, id: i64) -> Result<Document, NoMemory> {
    let mut document = Document::new(alloc);
    document.put(Words::of(alloc, "_id")?, Value::Int(id))?;
    Ok(document)
}

/// An entry of donor 2 for recipient 1.
pub(crate) fn entry(time: u64, what: What) -> Entry {
    Entry {
        stamp: Stamp { time, node: 1 },
        part: 0,
        donor: ShardId(2),
        to: Some(ShardId(1)),
        what,
    }
}

/// Donor 2's log with a delete for recipient 1 at each of these times, of the `_id` that is the time.
pub(crate) fn log_of_deletes(alloc: Global, from: u32, to: u32) -> Result<Log, Fail> {
    let mut log = Log::new(alloc, ShardId(2));
    for time in from..to {
        let id = Value::Int(time as i64);
        let entry = entry(time as u64, What::Delete { id });
        if !log.fits(&entry) {
            return Err(Fail::from("an entry doesn't fit"));
        }
        log.push(entry)?;
    }
    Ok(log)
}
