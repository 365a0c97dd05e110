//! How far a feed is read.

use crate::examples::number_of;
use resh_feed::{After, Item, Reading};
use resh_oplog::What;
use resh_stamp::{Mark, Stamp};
use resh_value::Value;
use std::test::Fail;

fn mark() -> Mark {
    Mark {
        stamp: Stamp { time: 3, node: 1 },
        part: 0,
    }
}

/// A reading that is past an item of the copies.
fn cloned() -> Reading {
    let start = Reading {
        last_id: None,
        mark: None,
        finished: false,
    };
    start.past(Item {
        what: What::Delete { id: Value::Int(4) },
        after: After::ById(Value::Int(4)),
    })
}

/// The same reading when it is past the last item.
fn ended() -> Reading {
    cloned().past(Item {
        what: What::Final,
        after: After::ByMark(mark()),
    })
}

fn told(reading: &Reading) -> (Option<i64>, Option<Mark>, bool) {
    (
        number_of(reading.last_id.as_ref()),
        reading.mark,
        reading.finished,
    )
}

#[test]
fn reading_goes_past_items(rt: HostRuntime) -> Result<(), Fail> {
    assert_eq!(rt;
        (told(&cloned()), told(&ended())),
        ((Some(4), None, false), (Some(4), Some(mark()), true))
    );
    Ok(())
}
