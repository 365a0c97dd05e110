use resh_progress::{Kept, Message, Progress, Told};
use resh_stamp::{Mark, Stamp};
use resh_value::{Copied, NoMemory, Value};
use std::alloc::Global;
use std::test::Fail;

const MESSAGES: [Message; 5] = [
    Message::Prepare,
    Message::Donate { fetch_time: 4 },
    Message::Block,
    Message::Install,
    Message::Release,
];

/// Whether the message of this place is like just itself, and is all that was told.
fn is_alone(message: &Message, told: &Told, place: usize) -> bool {
    for (other_place, other) in MESSAGES.iter().enumerate() {
        let same = place == other_place;
        if message.is_like(other) != same || told.has(other) != same {
            return false;
        }
    }
    true
}

fn is_told_alone(message: &Message, place: usize) -> bool {
    let mut told = Told::nothing();
    told.add(message);
    is_alone(message, &told, place)
}

#[test]
fn messages_are_told_by_kind(rt: HostRuntime) -> Result<(), Fail> {
    for (place, message) in MESSAGES.iter().enumerate() {
        assert!(rt; is_told_alone(message, place), "{place}");
    }
    let later = Message::Donate { fetch_time: 5 };
    assert!(rt; later.is_like(&MESSAGES[1]) && later != MESSAGES[1]);
    Ok(())
}

/// A record of a link with two lanes in which nothing but the end is as at first.
fn record(alloc: Global) -> Result<Kept, NoMemory> {
    let progress = Progress::new(alloc, 2)?;
    let mut kept = progress.resume().copied(alloc)?;
    if kept.lanes.push(5).is_err() {
        return Err(NoMemory);
    }
    kept.place = 7;
    kept.last_id = Some(Value::Int(3));
    kept.mark = Some(Mark {
        stamp: Stamp { time: 2, node: 1 },
        part: 4,
    });
    kept.read_out = true;
    Ok(kept)
}

const FIRST: &str =
    "Kept { place: 0, lanes: Sequence { items: [0, 0] }, last_id: None, mark: None, \
    read_out: false, finished: false }";

const KEPT: &str = "Kept { place: 7, lanes: Sequence { items: [0, 0, 5] }, last_id: Some(Int(3)), \
    mark: Some(Mark { stamp: Stamp { time: 2, node: 1 }, part: 4 }), read_out: true, finished: false }";

/// What a link with two lanes goes back to, at first or when this was kept.
fn resumed(alloc: Global, kept: Option<&Kept>) -> Result<String, Fail> {
    let mut progress = Progress::new(alloc, 2)?;
    if let Some(kept) = kept {
        progress.keep(kept.copied(alloc)?);
    }
    Ok(format!(in alloc; "{:?}", progress.resume())?)
}

#[test]
fn a_link_goes_back_to_what_it_kept(rt: HostRuntime) -> Result<(), Fail> {
    let alloc = rt.alloc();
    assert_eq!(rt; resumed(alloc, None)?.as_str(), FIRST);
    let kept = record(alloc)?;
    assert_eq!(rt; resumed(alloc, Some(&kept))?.as_str(), KEPT);
    Ok(())
}
