//! Documents by `_id`.

use crate::examples::{change, document, texts};
use resh_stash::Stash;
use resh_value::{Document, NoMemory, Value};
use std::alloc::Global;
use std::test::Fail;

#[derive(Drop, Clone, Copy)]
enum Step {
    Len,
    First,
    Put { id: i64, n: i64 },
    Get { id: i64 },
    Remove { id: i64 },
    Change { id: i64, n: i64 },
    TakeAll,
    Clear,
}

/// The text of a value; `none` where there is none.
fn value_text(alloc: Global, value: Option<&Value>) -> Result<String, NoMemory> {
    match value {
        Some(value) => Ok(String::from_str(alloc, value.text(alloc)?.as_str())?),
        None => Ok(String::from_str(alloc, "none")?),
    }
}

/// The text of a document; `none` where there is none.
fn document_text(alloc: Global, document: Option<&Document>) -> Result<String, NoMemory> {
    match document {
        Some(document) => Ok(String::from_str(alloc, document.text(alloc)?.as_str())?),
        None => Ok(String::from_str(alloc, "none")?),
    }
}

fn put(alloc: Global, stash: &mut Stash, id: i64, n: i64) -> Result<String, NoMemory> {
    match stash.insert(Value::Int(id), document(alloc, id, "n", n)?) {
        Ok(old) => document_text(alloc, old.as_ref()),
        Err(_) => Err(NoMemory),
    }
}

/// The `_id` and the document that were taken out.
fn removed(alloc: Global, taken: &Option<(Value, Document)>) -> Result<String, NoMemory> {
    match taken {
        Some((id, document)) => {
            let mut text = value_text(alloc, Some(id))?;
            text.push_str(document.text(alloc)?.as_str())?;
            Ok(text)
        }
        None => value_text(alloc, None),
    }
}

fn changed(alloc: Global, stash: &mut Stash, id: i64, n: i64) -> Result<bool, Fail> {
    let change = change(alloc, "n", n)?;
    if change.names_id() {
        return Err(Fail::from("it names the id"));
    }
    Ok(stash.apply(&Value::Int(id), &change)?)
}

fn answer(alloc: Global, stash: &mut Stash, step: Step) -> Result<String, Fail> {
    match step {
        Step::Len => Ok(format!(in alloc; "{}", stash.len())?),
        Step::First => Ok(value_text(alloc, stash.first())?),
        Step::Put { id, n } => Ok(put(alloc, stash, id, n)?),
        Step::Get { id } => Ok(document_text(alloc, stash.get(&Value::Int(id)))?),
        Step::Remove { id } => Ok(removed(alloc, &stash.remove(&Value::Int(id)))?),
        Step::Change { id, n } => Ok(format!(in alloc; "{}", changed(alloc, stash, id, n)?)?),
        Step::TakeAll => Ok(texts(alloc, stash.take_all()?.as_slice())?),
        Step::Clear => {
            stash.clear();
            Ok(String::new(alloc))
        }
    }
}

/// Steps and their answers: the document that stood there before a put, and whether there was one to change.
const STEPS: [(Step, &str); 19] = [
    (Step::Put { id: 3, n: 0 }, "none"),
    (Step::Put { id: 1, n: 0 }, "none"),
    (Step::Put { id: 2, n: 0 }, "none"),
    (Step::Len, "3"),
    (Step::First, "1"),
    (Step::Put { id: 1, n: 5 }, r#"{"_id":1,"n":0}"#),
    (Step::Get { id: 1 }, r#"{"_id":1,"n":5}"#),
    (Step::Remove { id: 1 }, r#"1{"_id":1,"n":5}"#),
    (Step::Remove { id: 1 }, "none"),
    (Step::Get { id: 1 }, "none"),
    (Step::First, "2"),
    (Step::Put { id: 1, n: 0 }, "none"),
    (Step::Remove { id: 2 }, r#"2{"_id":2,"n":0}"#),
    (Step::Change { id: 3, n: 7 }, "true"),
    (Step::Change { id: 4, n: 7 }, "false"),
    (Step::TakeAll, r#"{"_id":1,"n":0}{"_id":3,"n":7}"#),
    (Step::Len, "0"),
    (Step::Clear, ""),
    (Step::First, "none"),
];

/// The first answer that isn't its row's; `right` where all are.
fn wrong_answer(alloc: Global, stash: &mut Stash) -> Result<String, Fail> {
    for (step, wanted) in STEPS {
        let got = answer(alloc, stash, step)?;
        if got.as_str() != wanted {
            return Ok(got);
        }
    }
    Ok(String::from_str(alloc, "right")?)
}

fn told(alloc: Global) -> Result<String, Fail> {
    let mut stash = Stash::new(alloc);
    stash.reserve(3)?;
    wrong_answer(alloc, &mut stash)
}

#[test]
fn each_step_has_its_answer(rt: HostRuntime) -> Result<(), Fail> {
    assert_eq!(rt; told(rt.alloc())?.as_str(), "right");
    Ok(())
}
