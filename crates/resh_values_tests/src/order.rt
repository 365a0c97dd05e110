//! That the order of values is the one meant.

use crate::rows::RISING;
use resh_value::{Sequence, Value, Words, compare};
use serde_json::Value as Json;
use std::alloc::Global;
use std::test::Fail;

fn rising(alloc: Global) -> Result<Sequence<Value>, Fail> {
    let json = Json::from_str(alloc, RISING)?;
    match Value::from_json(alloc, &json, &Words::of(alloc, "")?) {
        Ok(Value::List(values)) => Ok(values),
        _ => Err(Fail::from("no list")),
    }
}

/// Whether two values compare as their places do.
fn stand_so(a: &Value, i: usize, b: &Value, j: usize) -> bool {
    compare(a, b) == i.cmp(&j) && (*a == *b) == (i == j)
}

#[test]
fn each_value_stands_in_its_place(rt: HostRuntime) -> Result<(), Fail> {
    let values = rising(rt.alloc())?;
    assert_eq!(rt; values.len(), 33);
    for (i, a) in values.as_slice().iter().enumerate() {
        for (j, b) in values.as_slice().iter().enumerate() {
            assert!(rt; stand_so(a, i, b, j), "{i} and {j}");
        }
    }
    Ok(())
}
