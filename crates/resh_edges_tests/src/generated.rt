//! The setup of a number: its text, read back, is the setup.

use resh_config::read_setup;
use resh_gen::{generate, generated_text};
use resh_io::{MemorySink, MemorySource};
use resh_run::plain_main;
use resh_setup::Setup;
use std::alloc::Global;
use std::test::Fail;

/// The first document, and how the text begins and ends.
const FIRST: &str = r#"{"_id":0,"n":0,"x":807,"y":424}"#;

const HEAD: &str = r#"{"batch":50,"clients":[{"commands":[{"#;

const TAIL: &str = "\"version\":1}\n";

/// So many documents, and commands of each client, are compared one by one.
const COMPARED: usize = 500;

/// The parts of a setup, the first documents with their owners under both maps.
fn parts(alloc: Global, setup: &Setup) -> Result<String, Fail> {
    let mut text = format!(in alloc; "{:?} {} {}", setup.shards, setup.lanes, setup.batch)?;
    write!(text, " {} {}", setup.steps.len(), setup.plan.len())?;
    write!(text, " {}", setup.documents.len())?;
    for document in setup.documents.as_slice().iter().take(COMPARED) {
        let old = setup.old_map.owner_of(document).0;
        let new = setup.new_map.owner_of(document).0;
        write!(text, " {old}>{new} {}", document.text(alloc)?.as_str())?;
    }
    for client in setup.clients.as_slice() {
        write!(text, " {} {}", client.name.as_str(), client.commands.len())?;
        for command in client.commands.as_slice().iter().take(COMPARED) {
            write!(text, " {command:?}")?;
        }
    }
    Ok(text)
}

/// What reading the text of a number gives.
fn read_parts(alloc: Global, text: &[u8]) -> Result<String, Fail> {
    match read_setup(alloc, text) {
        Ok(setup) => parts(alloc, &setup),
        Err(_) => Ok(String::from_str(alloc, "refused")?),
    }
}

/// What the run of number 7 comes to: reckoned from the numbers alone, since each command names a document of its own.
const SUMMARY: &str = "generated 7
documents 50000
commands 20000
end committed
inserted 4969
matched 10016
deleted 5015
other 0
shard s0 12605
shard s1 12353
shard s2 12617
shard s3 12379
";

/// What the top call writes for these words, where it ends well and reads nothing.
fn written(alloc: Global, text: &str) -> Result<Vec<u8>, Fail> {
    let mut words = Vec::new(alloc);
    for word in text.split(' ') {
        words.push(String::from_str(alloc, word)?)?;
    }
    let mut source = MemorySource::new(Vec::new(alloc), [1].to_vec(alloc)?, 1);
    let mut sink = MemorySink::new(alloc, Vec::new(alloc), 1_000_000);
    let outcome = plain_main(alloc, words.as_slice(), &mut source, &mut sink);
    if outcome.status != 0 {
        return Ok(Vec::new(alloc));
    }
    Ok(sink.bytes().to_vec(alloc)?)
}

#[test]
fn a_generated_text_is_printed(rt: HostRuntime) -> Result<(), Fail> {
    let alloc = rt.alloc();
    let text = generated_text(alloc, 0)?;
    assert!(rt; written(alloc, "generate 0 --print")?.as_slice() == text.as_slice());
    Ok(())
}

#[test]
fn a_generated_setup_is_summed_up(rt: HostRuntime) -> Result<(), Fail> {
    let text = written(rt.alloc(), "generate 7")?;
    assert!(rt; text.as_slice() == SUMMARY.as_bytes());
    Ok(())
}

#[test]
fn a_generated_text_is_read_as_its_setup(rt: HostRuntime) -> Result<(), Fail> {
    let alloc = rt.alloc();
    let text = generated_text(alloc, 0)?;
    let made = parts(alloc, &generate(alloc, 0)?)?;
    assert!(rt; read_parts(alloc, text.as_slice())?.as_str() == made.as_str());
    assert_eq!(rt; text.len(), 2864542);
    assert!(rt;
        text.as_slice().starts_with(HEAD.as_bytes()) && text.as_slice().ends_with(TAIL.as_bytes())
    );
    assert!(rt; made.as_str().contains(FIRST));
    Ok(())
}
