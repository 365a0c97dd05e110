//! What comes of cluster files.

use crate::file_rows::{
    CHUNK_FAULTS, CLIENT_FAULTS, CLIENTS, COMMANDS, DOCUMENT_FAULTS, FAULTS, GOOD, LIMITS, SETUPS,
    TEXTS, UPDATES,
};
use crate::plan_rows::{PLAN_FAULTS, PLANS, STEP_FAULTS, STEPS};
use resh_config::read_setup;
use resh_report::refusal;
use resh_setup::{Setup, SetupFault};
use resh_value::{Copied, NoMemory};
use serde_json::Value as Json;
use std::alloc::{AllocError, Global};
use std::test::Fail;

/// What a row has of its file.
#[derive(Clone, Copy)]
enum Part {
    Whole,
    Members,
    Commands,
    Steps,
    Plan,
    Long,
}

/// The text of a file; where a name comes twice, the later member counts.
fn file_text(alloc: Global, part: Part, json: &Json) -> Result<String, AllocError> {
    let text = json.to_string(alloc)?;
    let content = text.as_str();
    match part {
        Part::Whole => String::from_str(alloc, json.as_str().unwrap_or(content)),
        Part::Members => format!(in alloc; "{GOOD},{}", content.strip_prefix("{").unwrap_or("")),
        Part::Commands => {
            format!(in alloc; "{GOOD},\"clients\":[{{\"name\":\"a\",\"commands\":{content}}}]}}")
        }
        Part::Steps => format!(in alloc; "{GOOD},{CLIENTS},\"steps\":{content}}}"),
        Part::Plan => format!(in alloc; "{GOOD},{CLIENTS},\"plan\":{content}}}"),
        Part::Long => long_text(alloc, json),
    }
}

fn text_at(row: &Json, place: usize) -> &str {
    row.get(place).and_then(Json::as_str).unwrap_or("")
}

/// A file with a long member.
fn long_text(alloc: Global, row: &Json) -> Result<String, AllocError> {
    let (name, first) = (text_at(row, 0), text_at(row, 1));
    let mut text = format!(in alloc; "{GOOD},\"{name}\":{first}")?;
    for _ in 0..row.get(3usize).and_then(Json::as_u64).unwrap_or(0) {
        text.push_str(text_at(row, 2))?;
    }
    text.push_str(text_at(row, 4))?;
    text.push_str("}")?;
    Ok(text)
}

/// Copies of the clients, the steps and the plan.
fn push_parts(alloc: Global, text: &mut String, setup: &Setup) -> Result<(), Fail> {
    for client in setup.clients.copied(alloc)?.as_slice() {
        write!(text, " {}:{}", client.name.as_str(), client.commands.len())?;
    }
    for step in setup.steps.copied(alloc)?.as_slice() {
        write!(text, " {step:?}")?;
    }
    for planned in setup.plan.copied(alloc)?.as_slice() {
        let row = planned.row;
        write!(
            text,
            " {:?} {:?} {} {} {:?}",
            planned.who, row.kind, row.first, row.last, row.fate
        )?;
    }
    Ok(())
}

fn setup_text(alloc: Global, setup: &Setup) -> Result<String, Fail> {
    let mut text = String::new(alloc);
    for name in setup.shards.as_slice() {
        write!(text, "{} ", name.as_str())?;
    }
    write!(text, "{} {}", setup.lanes, setup.batch)?;
    for document in setup.documents.as_slice() {
        let old = setup.old_map.owner_of(document).0;
        let new = setup.new_map.owner_of(document).0;
        write!(text, " {old}>{new}")?;
    }
    push_parts(alloc, &mut text, setup)?;
    Ok(text)
}

/// The line of a refusal without its first word, quotes and end.
fn refusal_text(alloc: Global, fault: &SetupFault) -> Result<String, NoMemory> {
    let mut bytes = Vec::new(alloc);
    for byte in refusal(alloc, fault)?.as_slice() {
        if !matches!(*byte, b'"' | b'\n') {
            bytes.push(*byte)?;
        }
    }
    let text = String::from_utf8_lossy(alloc, bytes.as_slice())?;
    let words = text.as_str().strip_prefix("refused: ").unwrap_or("");
    Ok(String::from_str(alloc, words)?)
}

fn answer(alloc: Global, bytes: &[u8]) -> Result<String, Fail> {
    match read_setup(alloc, bytes) {
        Ok(setup) => setup_text(alloc, &setup),
        Err(fault) => Ok(refusal_text(alloc, &fault)?),
    }
}

/// The first answer that isn't the one at this place of its row, or nothing.
fn wrong_answer(alloc: Global, part: Part, rows: &str, place: usize) -> Result<String, Fail> {
    let rows = Json::from_str(alloc, rows)?;
    for row in rows.as_array().ok_or("rows")? {
        let json = if place == 1 {
            row.get(0usize).unwrap_or(row)
        } else {
            row
        };
        let got = answer(alloc, file_text(alloc, part, json)?.as_bytes())?;
        if got.as_str() != text_at(row, place) {
            return Ok(format!(in alloc; "{} for {}", got.as_str(), text_at(row, place))?);
        }
    }
    Ok(String::new(alloc))
}

#[test]
fn files_are_setups_or_their_first_faults(rt: HostRuntime) -> Result<(), Fail> {
    let alloc = rt.alloc();
    let cases = [
        (Part::Whole, TEXTS, 1),
        (Part::Members, SETUPS, 1),
        (Part::Members, FAULTS, 1),
        (Part::Members, CHUNK_FAULTS, 1),
        (Part::Members, DOCUMENT_FAULTS, 1),
        (Part::Members, CLIENT_FAULTS, 1),
        (Part::Commands, COMMANDS, 1),
        (Part::Commands, UPDATES, 1),
        (Part::Steps, STEPS, 1),
        (Part::Steps, STEP_FAULTS, 1),
        (Part::Plan, PLANS, 1),
        (Part::Plan, PLAN_FAULTS, 1),
        (Part::Long, LIMITS, 5),
    ];
    for (part, rows, place) in cases {
        assert_eq!(rt; wrong_answer(alloc, part, rows, place)?.as_str(), "");
    }
    assert_eq!(rt; answer(alloc, b"\"\xff\"")?.as_str(), "not JSON");
    Ok(())
}
