//! Cluster times and stamps.

use resh_stamp::{Clock, Mark, Stamp};
use std::cmp::Ordering;
use std::test::Fail;

/// Where a clock stands, where others stand, and the time of an event on all of them.
const EVENTS: [(u64, [u64; 3], Option<u64>); 6] = [
    (0, [0, 0, 0], Some(1)),
    (4, [2, 7, 3], Some(8)),
    (4, [2, 3, 0], Some(5)),
    (
        0,
        [1, 4_611_686_018_427_387_902, 0],
        Some(4_611_686_018_427_387_903),
    ),
    (0, [1, 4_611_686_018_427_387_903, 0], None),
    (0, [1, u64::MAX, 0], None),
];

/// Where a clock that was set to a time stands after the event's time was asked for, and that time.
fn event(time: u64, others: &[u64]) -> (u64, Option<u64>) {
    let mut clock = Clock::new();
    clock.set(time);
    let mut next = None;
    if clock.has_next(others) {
        next = Some(clock.next(others));
    }
    (clock.now(), next)
}

#[test]
fn an_event_is_later_than_all_clocks(rt: HostRuntime) -> Result<(), Fail> {
    for (time, others, next) in EVENTS {
        assert_eq!(rt; event(time, others.as_slice()), (time, next));
    }
    Ok(())
}

#[test]
fn a_clock_goes_on_alone(rt: HostRuntime) -> Result<(), Fail> {
    assert_eq!(rt;
        (event(0, &[]), event(4, &[])),
        ((0, Some(1)), (4, Some(5)))
    );
    Ok(())
}

fn mark(part: u32) -> Mark {
    Mark {
        stamp: Stamp { time: 2, node: 0 },
        part,
    }
}

#[test]
fn stamps_rise_by_time_first(rt: HostRuntime) -> Result<(), Fail> {
    let early = Stamp { time: 1, node: 9 };
    let late = Stamp { time: 2, node: 0 };
    assert_eq!(rt;
        (early.compare(&late), early.cmp(&late)),
        (Ordering::Less, Ordering::Less)
    );
    assert_eq!(rt;
        (mark(1).compare(&mark(0)), mark(0).compare(&mark(0))),
        (Ordering::Greater, Ordering::Equal)
    );
    Ok(())
}
