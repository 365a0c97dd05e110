use crate::examples::{document, entry, log_of_deletes};
use resh_fetcher::{Fetched, Link, link_laws};
use resh_oplog::{Cloned, Log, What};
use resh_value::{Sequence, ShardId, Value};
use std::alloc::Global;
use std::test::Fail;

#[derive(Clone, Copy)]
enum Fact {
    Started,
    Open,
    ReadOut,
    Cloned,
    MayCut,
    MayFetch,
    Near,
    Ended,
    Failed,
}

/// What is done with a link of one lane, and what it answers.
#[derive(Clone, Copy)]
enum Act {
    Is(Fact, bool),
    Start(u64),
    /// No document comes, and none will.
    CloneNone,
    /// The document of this `_id` comes, and none will.
    CloneOne(i64),
    /// So many entries of a log come, and so many items are in the buffer then.
    Fetch(u64, u64),
    /// The feed's last entry comes.
    FetchFinal,
    /// The batch of at most three items at time 20 has this place and so many items.
    Cut(u64, u64),
    /// At most three items are sent, up to this place.
    Send(u64),
    /// The batch is kept up to this place, behind this `_id`.
    Keep(u64, i64),
    /// It goes back, for the time of this number.
    Back(u32),
    Close,
    Fail,
}

fn is(link: &Link, fact: Fact) -> bool {
    match fact {
        Fact::Started => link.is_started(),
        Fact::Open => link.is_open(),
        Fact::ReadOut => link.read_out(),
        Fact::Cloned => link.cloned(),
        Fact::MayCut => link.may_cut(),
        Fact::MayFetch => link.may_fetch(),
        Fact::Near => link.near(),
        Fact::Ended => link.ended(),
        Fact::Failed => link.has_failed(),
    }
}

fn starts(link: &mut Link, time: u64) -> bool {
    if link.is_started() {
        return false;
    }
    link.start(time);
    true
}

fn clones_none(alloc: Global, link: &mut Link) -> Result<bool, Fail> {
    if !link.may_clone() {
        return Ok(false);
    }
    let documents = Sequence::new(alloc);
    let count = link.take_cloned(Cloned {
        documents,
        end: true,
    })?;
    Ok(count == 0)
}

fn clones_one(alloc: Global, link: &mut Link, id: i64) -> Result<bool, Fail> {
    let document = document(alloc, id)?;
    if !link.may_clone() || link.batch() < 1 || !document.is_whole() {
        return Ok(false);
    }
    let documents = Sequence::from_vec(Vec::from_array(alloc, [document])?);
    let count = link.take_cloned(Cloned {
        documents,
        end: true,
    })?;
    Ok(count == 1 && link.item(0).is_some())
}

fn fetches(link: &mut Link, log: &Log, count: u64, buffered: u64) -> Result<bool, Fail> {
    if !link.may_fetch() {
        return Ok(false);
    }
    let entries = link.fetch(log)?;
    let so = entries.len() == count;
    link.take_fetched(entries)?;
    Ok(so && link.buffered() == buffered)
}

fn fetches_final(alloc: Global, link: &mut Link) -> Result<bool, Fail> {
    let last = entry(11, What::Final);
    if !link.may_fetch() || link.batch() < 1 || !last.what.is_whole() {
        return Ok(false);
    }
    let entries = Sequence::from_vec(Vec::from_array(alloc, [last])?);
    Ok(link.take_fetched(entries)? == Fetched::Got { n: 1, last: true })
}

fn cuts(alloc: Global, link: &Link, place: u64, count: u64) -> Result<bool, Fail> {
    if !link.may_cut() {
        return Ok(false);
    }
    let batch = link.batch_of(alloc, 3, 20)?;
    Ok(batch.place == place && batch.time == 20 && batch.items.len() == count)
}

fn sends(alloc: Global, link: &mut Link, end: u64) -> Result<bool, Fail> {
    if !link.may_cut() || link.lanes() != 1 {
        return Ok(false);
    }
    let ends = Sequence::from_vec(Vec::from_array(alloc, [1])?);
    link.send_out(3, ends);
    Ok(link.batch_end() == Some(end))
}

fn keeps(link: &mut Link, place: u64, id: i64) -> bool {
    if link.batch_end().is_none() {
        return false;
    }
    link.keep_batch();
    link.kept().place == place && link.last_id() == Some(&Value::Int(id))
}

fn is_so(alloc: Global, link: &mut Link, log: &Log, act: Act) -> Result<bool, Fail> {
    match act {
        Act::Is(fact, so) => Ok(is(link, fact) == so),
        Act::Start(time) => Ok(starts(link, time)),
        Act::CloneNone => clones_none(alloc, link),
        Act::CloneOne(id) => clones_one(alloc, link, id),
        Act::Fetch(count, buffered) => fetches(link, log, count, buffered),
        Act::FetchFinal => fetches_final(alloc, link),
        Act::Cut(place, count) => cuts(alloc, link, place, count),
        Act::Send(end) => sends(alloc, link, end),
        Act::Keep(place, id) => Ok(keeps(link, place, id)),
        Act::Back(crashes) => {
            link.back();
            Ok(link.crashes() == crashes)
        }
        Act::Close => {
            link.close();
            Ok(true)
        }
        Act::Fail => {
            link.fail();
            Ok(true)
        }
    }
}

fn wrong_act(
    alloc: Global,
    link: &mut Link,
    log: &Log,
    acts: &[Act],
) -> Result<Option<usize>, Fail> {
    for (place, act) in acts.iter().enumerate() {
        if !is_so(alloc, link, log, *act)? {
            return Ok(Some(place));
        }
    }
    Ok(None)
}

/// The first place at which a new link that reads so many items at a time answers otherwise.
fn wrong(alloc: Global, batch: u32, log: &Log, acts: &[Act]) -> Result<Option<usize>, Fail> {
    let mut link = Link::new(alloc, ShardId(1), ShardId(2), 1, batch.max(1))?;
    wrong_act(alloc, &mut link, log, acts)
}

const READ_OUT: [Act; 4] = [
    Act::Start(10),
    Act::CloneNone,
    Act::Is(Fact::ReadOut, true),
    Act::Is(Fact::Cloned, true),
];

const BACK: [Act; 6] = [
    Act::Start(10),
    Act::Is(Fact::Started, true),
    Act::Is(Fact::Open, true),
    Act::Back(1),
    Act::Close,
    Act::Is(Fact::Open, false),
];

const CUT: [Act; 4] = [
    Act::Start(10),
    Act::CloneOne(5),
    Act::Is(Fact::MayCut, true),
    Act::Cut(0, 1),
];

const KEPT: [Act; 4] = [
    Act::Start(10),
    Act::CloneOne(5),
    Act::Send(1),
    Act::Keep(1, 5),
];

const FETCHED: [Act; 3] = [Act::Start(10), Act::CloneNone, Act::Fetch(2, 2)];

const FINAL: [Act; 7] = [
    Act::Start(10),
    Act::CloneNone,
    Act::FetchFinal,
    Act::Is(Fact::Near, true),
    Act::Is(Fact::Ended, true),
    Act::Fail,
    Act::Is(Fact::Failed, true),
];

const READS_ON: [Act; 7] = [
    Act::Start(0),
    Act::CloneNone,
    Act::Fetch(40_000, 40_000),
    Act::Is(Fact::MayFetch, true),
    Act::Fetch(30_000, 70_000),
    Act::Is(Fact::Near, true),
    Act::Is(Fact::Ended, false),
];

#[test]
fn a_link_reads_cuts_and_keeps(rt: HostRuntime) -> Result<(), Fail> {
    link_laws();
    let log = log_of_deletes(rt.alloc(), 9, 13)?;
    let runs = [
        READ_OUT.as_slice(),
        BACK.as_slice(),
        CUT.as_slice(),
        KEPT.as_slice(),
        FETCHED.as_slice(),
        FINAL.as_slice(),
    ];
    for (place, acts) in runs.iter().enumerate() {
        assert_eq!(rt; wrong(rt.alloc(), 4, &log, acts)?, None, "run {place}");
    }
    Ok(())
}

#[test]
fn a_link_reads_on_past_any_number_of_items(rt: HostRuntime) -> Result<(), Fail> {
    let log = log_of_deletes(rt.alloc(), 1, 70_001)?;
    assert_eq!(rt; wrong(rt.alloc(), 40_000, &log, &READS_ON)?, None);
    Ok(())
}
