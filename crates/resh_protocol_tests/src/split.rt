use crate::examples::log_of_deletes;
use resh_fetcher::{Batch, Link};
use resh_oplog::{Cloned, Log, What};
use resh_progress::Counts;
use resh_split::{Parts, Pieces, ends_of, id_lane, lane_of, split, split_laws};
use resh_value::{NoMemory, Sequence, ShardId, Value};
use std::alloc::Global;
use std::test::Fail;

/// Three deletes and the feed's last item.
fn items(alloc: Global) -> Result<Vec<What>, NoMemory> {
    let mut items = Vec::new(alloc);
    for id in [1, 2, 3] {
        items.push(What::Delete { id: Value::Int(id) })?;
    }
    items.push(What::Final)?;
    Ok(items)
}

fn batch(alloc: Global, starts: [u64; 2]) -> Result<Batch, NoMemory> {
    let starts = Vec::from_array(alloc, starts)?;
    Ok(Batch {
        donor: ShardId(2),
        place: 4,
        time: 9,
        starts: Sequence::from_vec(starts),
        items: Sequence::from_vec(items(alloc)?),
    })
}

/// Puts the place and the position of each piece behind a text.
fn show(shown: &mut String, alloc: Global, part: &Pieces) -> Result<(), Fail> {
    for piece in part.as_slice() {
        let text = format!(in alloc; " {}:{}", piece.place, piece.position)?;
        shown.push_str(text.as_str())?;
    }
    Ok(())
}

/// The pieces of each lane.
fn show_all(alloc: Global, parts: &Parts) -> Result<String, Fail> {
    let mut shown = String::new(alloc);
    for part in parts.as_slice() {
        shown.push_str(" lane")?;
        show(&mut shown, alloc, part)?;
    }
    Ok(shown)
}

/// The parts of a batch; none where it hasn't so many lanes.
fn parts_of(alloc: Global, batch: Batch, lanes: u32) -> Result<Option<Parts>, NoMemory> {
    if lanes == 0 || batch.starts.len() != u64::from(lanes) {
        return Ok(None);
    }
    Ok(Some(split(alloc, batch, lanes)?))
}

fn shown(alloc: Global, starts: [u64; 2]) -> Result<Option<String>, Fail> {
    match parts_of(alloc, batch(alloc, starts)?, 2)? {
        Some(parts) => Ok(Some(show_all(alloc, &parts)?)),
        None => Ok(None),
    }
}

#[test]
fn items_come_to_the_lanes_of_their_ids(rt: HostRuntime) -> Result<(), Fail> {
    let shown = shown(rt.alloc(), [3, 0])?;
    assert_eq!(rt; shown.as_deref(), Some(" lane 5:3 lane 4:0 6:1"));
    Ok(())
}

fn ends_of_new(alloc: Global) -> Result<Counts, NoMemory> {
    let link = Link::new(alloc, ShardId(1), ShardId(2), 2, 4)?;
    ends_of(&link, alloc, 3)
}

#[test]
fn nothing_is_behind_an_empty_buffer(rt: HostRuntime) -> Result<(), Fail> {
    assert_eq!(rt; ends_of_new(rt.alloc())?.as_slice(), [0, 0].as_slice());
    Ok(())
}

/// The lane of an `_id`, and that of its text.
fn lanes_of(alloc: Global, id: i64, lanes: u32) -> Result<[u32; 2], NoMemory> {
    let lanes = lanes.max(1);
    let lane = id_lane(&Value::Int(id), alloc, lanes)?;
    let text = Value::Int(id).text(alloc)?;
    Ok([lane, lane_of(&text, lanes)])
}

#[test]
fn a_lane_is_the_sum_of_bytes(rt: HostRuntime) -> Result<(), Fail> {
    split_laws();
    for (id, lanes, lane) in [(7, 4, 3), (7, 1, 0), (12, 4, 3), (21, 4, 3), (12, 7, 1)] {
        assert_eq!(rt; lanes_of(rt.alloc(), id, lanes)?, [lane, lane], "{id}");
    }
    Ok(())
}

/// A link of three lanes that got what a log has.
fn filled(alloc: Global, log: &Log) -> Result<Link, NoMemory> {
    let mut link = Link::new(alloc, ShardId(1), ShardId(2), 3, 70_000)?;
    link.start(0);
    link.take_cloned(Cloned {
        documents: Sequence::new(alloc),
        end: true,
    })?;
    let entries = link.fetch(log)?;
    link.take_fetched(entries)?;
    Ok(link)
}

/// The parts of all that is in the buffer.
fn parted(alloc: Global, link: &Link) -> Result<Option<Parts>, NoMemory> {
    if !link.may_cut() {
        return Ok(None);
    }
    parts_of(alloc, link.batch_of(alloc, 70_000, 9)?, link.lanes())
}

/// How many pieces the parts have; none where a lane's end isn't the number of its pieces.
fn count(parts: &Parts, ends: &Counts) -> Option<u64> {
    let mut sum = 0u64;
    for (part, end) in parts.as_slice().iter().zip(ends.as_slice()) {
        if part.len() != *end {
            return None;
        }
        sum = sum.wrapping_add(*end);
    }
    Some(sum)
}

fn counted(alloc: Global, link: &Link) -> Result<Option<u64>, NoMemory> {
    let ends = ends_of(link, alloc, 70_000)?;
    match parted(alloc, link)? {
        Some(parts) => Ok(count(&parts, &ends)),
        None => Ok(None),
    }
}

#[test]
fn a_batch_of_any_length_is_split(rt: HostRuntime) -> Result<(), Fail> {
    let alloc = rt.alloc();
    let log = log_of_deletes(alloc, 1, 70_001)?;
    assert_eq!(rt; counted(alloc, &filled(alloc, &log)?)?, Some(70_000));
    Ok(())
}
