//! Updates of a document near the greatest size, and copies of it, to be timed beside one another.
//!
//! The words are `copy N` or `change N`; with no words nothing is done.
#![tactic(auto)]

use resh_ops::Update;
use resh_value::{Document, NoMemory, TEXT_LIMIT, Words};
use serde_json::Value as Json;
use std::alloc::Global;
use std::env;
use std::process::ExitCode;

/// The document's fields, of about 60 bytes each.
const FIELDS: u32 = 260;

const UPDATE: &str =
    r#"{"$inc":{"count":1},"$set":{"f050":"new","n.a.b":2},"$unset":{"f200":null}}"#;

/// What went wrong: want of memory, or words and texts that can't be read.
#[derive(Debug, Drop)]
struct Stopped;

fn main(rt: HostRuntime) -> ExitCode {
    match timed(&rt) {
        Ok(()) => ExitCode::from(0),
        Err(Stopped) => ExitCode::from(1),
    }
}

fn timed(rt: &HostRuntime) -> Result<(), Stopped> {
    let alloc = rt.alloc();
    let arguments = env::args(rt).map_err(|_| Stopped)?;
    let words: Vec<String> = arguments.skip(1).collect(alloc).map_err(|_| Stopped)?;
    match words.as_slice() {
        [mode, times] => {
            let times: u32 = times.as_str().parse().map_err(|_| Stopped)?;
            let document = large_document(alloc)?;
            if mode.as_str() == "copy" {
                copies(&document, times)
            } else {
                changes(alloc, &document, times)
            }
        }
        _ => Ok(()),
    }
}

/// Copies the document so many times.
fn copies(document: &Document, times: u32) -> Result<(), Stopped> {
    for _ in 0..times {
        document.copy().map_err(|_| Stopped)?;
    }
    Ok(())
}

/// Makes the update's change of the document so many times.
fn changes(alloc: Global, document: &Document, times: u32) -> Result<(), Stopped> {
    let update = update(alloc)?;
    for _ in 0..times {
        update.change(document, TEXT_LIMIT).map_err(|_| Stopped)?;
    }
    Ok(())
}

fn update(alloc: Global) -> Result<Update, Stopped> {
    let json = Json::from_str(alloc, UPDATE).map_err(|_| Stopped)?;
    let here = Words::of(alloc, "").map_err(|_| Stopped)?;
    Update::read(alloc, &json, &here).map_err(|_| Stopped)
}

/// `{"_id":1,"count":7,"f000":"..","f001":"..",..}`
fn large_document(alloc: Global) -> Result<Document, Stopped> {
    let mut text = String::from_str(alloc, "{\"_id\":1,\"count\":7").map_err(|_| Stopped)?;
    for place in 0..FIELDS {
        let field = format!(in alloc; ",\"f{place:03}\":\"{place:048}\"").map_err(|_| Stopped)?;
        text.push_str(field.as_str()).map_err(|_| Stopped)?;
    }
    text.push_str("}").map_err(|_| Stopped)?;
    let json = Json::from_str(alloc, text.as_str()).map_err(|_| Stopped)?;
    let here = Words::of(alloc, "").map_err(|_| Stopped)?;
    Document::from_json(alloc, &json, &here).map_err(|_| Stopped)
}
