//! The lines of a file's steps.

ghost use Rattle.std.specs.Prelude.{◌≡◌, ◌++◌, codes, decimal, string_bytes, IfOk};
ghost use Rattle.resh_report.specs.Ends.{node_text};
ghost use Rattle.resh_report.specs.Lines.{name_at, names_of};
ghost use Rattle.resh_report.specs.StepLines.{after_words, applied_at, fixed_text, lane_words, late_mark, link_words, message_text, piece_text, seen_text, step_line, step_words, write_text};

use crate::ends::why_text;
use resh_coord::Node;
use resh_setup::{Client, Event, MessageKind, Seen, Setup, WriteKind};
use resh_value::{NoMemory, ShardId, Words};
use std::alloc::Global;

/// The line of one event of a file's step, without its line feed: the step's number, from 1, the step's words and what
/// the event showed. A failure's line has no words of a step. Each client and shard that `event` and `seen` name is one
/// of the setup.
pub fn line(
    alloc: Global,
    setup: &Setup,
    number: u32,
    event: &Event,
    seen: &Seen,
) -> Result<Words, NoMemory>
    ensures { IfOk result (λ words. words ≡
        step_line setup.now.shards (names_of setup.now.clients) number event.now seen.now) }
{
    let shards = setup.shards.as_slice();
    let words = step_words(alloc, shards, setup.clients.as_slice(), event)?;
    let after = after_words(event);
    let text = seen_text(alloc, shards, seen)?;
    let text = format!(in alloc; "{number} {words}{after}{text}")?;
    Ok(Words::from_string(text))
}

fn step_words(
    alloc: Global,
    shards: &[Words],
    clients: &[Client],
    event: &Event,
) -> Result<String, NoMemory>
    ensures { IfOk result (λ words. string_bytes words ≡ step_words shards.now (names_of clients.now) event.now) }
{
    match *event {
        Event::Client { client } => with_name(alloc, "client", client_name(clients, client)),
        Event::Begin => text(alloc, "begin"),
        Event::Tell { shard } => with_name(alloc, "tell", shard_name(shards, shard)),
        Event::Retell { shard, message } => retell_words(alloc, shard_name(shards, shard), message),
        Event::Advance => text(alloc, "advance"),
        Event::Clone { recipient, donor } => link_words(alloc, shards, "clone", recipient, donor),
        Event::Fetch { recipient, donor } => link_words(alloc, shards, "fetch", recipient, donor),
        Event::Cut { recipient, donor } => link_words(alloc, shards, "cut", recipient, donor),
        Event::Apply {
            recipient,
            donor,
            lane,
        } => { lane_words(alloc, shards, "apply", (recipient, donor), lane) }
        Event::Again {
            recipient,
            donor,
            lane,
            position,
        } => {
            let words = lane_words(alloc, shards, "again", (recipient, donor), lane)?;
            Ok(format!(in alloc; "{words} {position}")?)
        }
        Event::Record { recipient, donor } => link_words(alloc, shards, "record", recipient, donor),
        Event::Crash { recipient, donor } => link_words(alloc, shards, "crash", recipient, donor),
        Event::Report { recipient } => with_name(alloc, "report", shard_name(shards, recipient)),
        Event::Fail { .. } => Ok(String::new(alloc)),
    }
}

fn after_words(event: &Event) -> &'static str
    ensures { result.now ≡ after_words event.now }
{
    match event {
        Event::Fail { .. } => "",
        _ => ": ",
    }
}

fn seen_text(alloc: Global, shards: &[Words], seen: &Seen) -> Result<String, NoMemory>
    ensures { IfOk result (λ text. string_bytes text ≡ seen_text shards.now seen.now) }
{
    match seen {
        Seen::Command { number } => Ok(format!(in alloc; "command {number}")?),
        Seen::Installed { documents } => Ok(format!(in alloc; "installed {documents}")?),
        Seen::GotEnd { count } => Ok(format!(in alloc; "got {count}, end")?),
        Seen::GotMore { count } => Ok(format!(in alloc; "got {count}, more")?),
        Seen::Got { count } => Ok(format!(in alloc; "got {count}")?),
        Seen::GotFinal { count } => Ok(format!(in alloc; "got {count}, final")?),
        Seen::Batch { from, to } => batch_text(alloc, *from, *to),
        Seen::Kept { place } => Ok(format!(in alloc; "place {place}")?),
        Seen::KeptLast { place } => Ok(format!(in alloc; "place {place}, finished")?),
        Seen::Back { place } => Ok(format!(in alloc; "back to place {place}")?),
        Seen::Clash { id } => with_name(alloc, "clash", id.text(alloc)?.as_str()),
        Seen::Fails { node, cause, late } => {
            fail_text(alloc, node_name(shards, *node), why_text(*cause), *late)
        }
        Seen::FailsForMemory { recipient, late } => {
            fail_text(alloc, shard_name(shards, *recipient), "no memory", *late)
        }
        _ => piece_text(alloc, shards, seen),
    }
}

/// What a lane showed of a piece, or a text without numbers.
fn piece_text(alloc: Global, shards: &[Words], seen: &Seen) -> Result<String, NoMemory>
    ensures { IfOk result (λ text. string_bytes text ≡ piece_text shards.now seen.now) }
{
    match seen {
        Seen::Applied {
            write,
            rule,
            place,
            stash,
        } => {
            let write = write_text(*write);
            let met = format!(in alloc; "{write} rule {rule}")?;
            applied_text(alloc, met.as_str(), *place, *stash)
        }
        Seen::Took {
            write,
            donor,
            place,
            stash,
        } => {
            let (write, donor) = (write_text(*write), shard_name(shards, *donor));
            let met = format!(in alloc; "{write} rule 4 took {donor}")?;
            applied_text(alloc, met.as_str(), *place, *stash)
        }
        Seen::Repeated { at } => Ok(format!(in alloc; "repeated, at {at}")?),
        Seen::Ahead { at } => Ok(format!(in alloc; "ahead, at {at}")?),
        _ => text(alloc, fixed_text(seen)),
    }
}

fn fixed_text(seen: &Seen) -> &'static str
    ensures { result.now ≡ fixed_text seen.now }
{
    match seen {
        Seen::Idle => "idle",
        Seen::Blocked => "blocked",
        Seen::Refreshed => "refreshed",
        Seen::PreparingToDonate => "preparing to donate",
        Seen::Prepared => "prepared",
        Seen::Donating => "donating",
        Seen::Released => "released",
        Seen::NothingNew => "nothing new",
        Seen::Cloning => "cloning",
        Seen::Applying => "applying",
        Seen::BlockingWrites => "blocking writes",
        Seen::Committing => "committing",
        Seen::Aborting => "aborting",
        Seen::Done => "done",
        Seen::GotNothing => "nothing",
        Seen::Cloned => "cloned",
        Seen::Near => "near",
        Seen::Consistent => "consistent",
        Seen::Lost => "lost 64 times",
        Seen::CrashedBefore => "crashed before",
        Seen::Failed => "failed",
        Seen::NoMemory => "no memory",
        _ => "",
    }
}

fn batch_text(alloc: Global, from: u64, to: u64) -> Result<String, NoMemory>
    ensures { IfOk result (λ text.
        string_bytes text ≡ codes "batch " ++ decimal from ++ codes " to " ++ decimal to) }
{
    Ok(format!(in alloc; "batch {from} to {to}")?)
}

/// The rule that a piece met, and where it stood.
fn applied_text(alloc: Global, met: &str, place: u64, stash: u64) -> Result<String, NoMemory>
    ensures { IfOk result (λ text. string_bytes text ≡ met.now ++ applied_at place stash) }
{
    Ok(format!(in alloc; "{met}, place {place}, stash {stash}")?)
}

fn fail_text(alloc: Global, node: &str, cause: &str, late: bool) -> Result<String, NoMemory>
    ensures { IfOk result (λ text.
        string_bytes text ≡ codes "fail " ++ node.now ++ codes " " ++ cause.now ++ late_mark late) }
{
    let mark = late_mark(late);
    Ok(format!(in alloc; "fail {node} {cause}{mark}")?)
}

fn late_mark(late: bool) -> &'static str
    ensures { result.now ≡ late_mark late }
{
    if late { ": too late" } else { "" }
}

fn retell_words(alloc: Global, shard: &str, message: MessageKind) -> Result<String, NoMemory>
    ensures { IfOk result (λ words.
        string_bytes words ≡ codes "retell " ++ shard.now ++ codes " " ++ message_text message) }
{
    let message = message_text(message);
    Ok(format!(in alloc; "retell {shard} {message}")?)
}

fn link_words(
    alloc: Global,
    shards: &[Words],
    word: &str,
    recipient: ShardId,
    donor: ShardId,
) -> Result<String, NoMemory>
    ensures { IfOk result (λ words.
        string_bytes words ≡ link_words shards.now word.now recipient.0 donor.0) }
{
    let (recipient, donor) = (shard_name(shards, recipient), shard_name(shards, donor));
    Ok(format!(in alloc; "{word} {recipient} {donor}")?)
}

fn lane_words(
    alloc: Global,
    shards: &[Words],
    word: &str,
    link: (ShardId, ShardId),
    lane: u32,
) -> Result<String, NoMemory>
    ensures { IfOk result (λ words.
        string_bytes words ≡ lane_words shards.now word.now link.0.0 link.1.0 lane) }
{
    let (recipient, donor) = link;
    let words = link_words(alloc, shards, word, recipient, donor)?;
    Ok(format!(in alloc; "{words} {lane}")?)
}

/// A word, a space and a name.
fn with_name(alloc: Global, word: &str, name: &str) -> Result<String, NoMemory>
    ensures { IfOk result (λ words. string_bytes words ≡ word.now ++ codes " " ++ name.now) }
{
    Ok(format!(in alloc; "{word} {name}")?)
}

fn text(alloc: Global, text: &str) -> Result<String, NoMemory>
    ensures { IfOk result (λ copy. string_bytes copy ≡ text.now) }
{
    Ok(String::from_str(alloc, text)?)
}

fn message_text(message: MessageKind) -> &'static str
    ensures { result.now ≡ message_text message }
{
    match message {
        MessageKind::Prepare => "prepare",
        MessageKind::Donate => "donate",
        MessageKind::Block => "block",
        MessageKind::Install => "install",
        MessageKind::Release => "release",
    }
}

fn write_text(write: WriteKind) -> &'static str
    ensures { result.now ≡ write_text write }
{
    match write {
        WriteKind::Insert => "insert",
        WriteKind::Update => "update",
        WriteKind::Delete => "delete",
    }
}

fn node_name(shards: &[Words], node: Node) -> &str
    ensures { result.now ≡ node_text shards.now node }
{
    match node {
        Node::Coordinator => "coordinator",
        Node::Shard(shard) => shard_name(shards, shard),
    }
}

/// The shard's name, or nothing where there is none.
fn shard_name(shards: &[Words], shard: ShardId) -> &str
    ensures { result.now ≡ name_at shards.now shard.0 }
{
    match shards.get(shard.0 as usize) {
        Some(name) => name.as_str(),
        None => "",
    }
}

/// The client's name, or nothing where there is none.
fn client_name(clients: &[Client], client: u32) -> &str
    ensures { result.now ≡ name_at (names_of clients.now) client }
{
    match clients.get(client as usize) {
        Some(client) => client.name.as_str(),
        None => "",
    }
}
