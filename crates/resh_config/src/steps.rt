//! Steps: texts of words with one space between.

ghost use Rattle.std.specs.Prelude.{◌≡◌, map, Some};
ghost use Rattle.resh_value.specs.Outcome.{Gives};
ghost use Rattle.resh_config.specs.Steps.{alone, client_of, shard_of, retold_of, link_of, lane_of, piece_with, piece_of, step_with, step_of, step_in, steps_in};

use crate::faults::{Fault, unknown_here, wrong_kind};
use crate::lists::{ItemReader, list_in};
use crate::step_word::{StepWord, step_word};
use crate::walk::{FieldReader, text_in};
use crate::words::{Known, LaneName, words_of};
use resh_setup::{Event, Events, MessageKind};
use resh_value::{ShardId, WalkFault};
use serde_json::Value as Json;
use std::alloc::{AllocError, Global};

/// So many steps there may be.
const MOST_STEPS: u64 = 100_000;

/// Reads the steps.
#[derive(Drop)]
pub(crate) struct Steps<'a> {
    pub(crate) known: &'a Known<'a>,
}

impl FieldReader for Steps<'_> {
    type Content = Events;

    ghost reads = { λ s. steps_in s.known.now.shards.now s.known.now.clients.now s.known.now.lanes };

    fn read(self, alloc: Global, json: &Json) -> Result<Events, Fault> {
        list_in(
            alloc,
            &mut StepReader { known: self.known },
            MOST_STEPS,
            json,
        )
    }
}

#[derive(Drop)]
struct StepReader<'a> {
    known: &'a Known<'a>,
}

impl ItemReader for StepReader<'_> {
    type Item = Event;

    ghost reads = { λ s. step_in s.known.now.shards.now s.known.now.clients.now s.known.now.lanes };

    fn read(&mut self, alloc: Global, _before: &[Event], json: &Json) -> Result<Event, Fault> {
        match text_in(alloc, json) {
            Ok(text) => match words_of(alloc, text) {
                Ok(words) => step_of(alloc, self.known, words.as_slice()),
                Err(AllocError) => Err(WalkFault::NoMemory),
            },
            Err(fault) => Err(fault),
        }
    }
}

fn step_of(alloc: Global, known: &Known, words: &[&str]) -> Result<Event, Fault>
    ensures { result ≡ step_of known.now.shards.now known.now.clients.now known.now.lanes
        (map (λ w. w.now) words.now) }
{
    match words {
        [first, rest @ ..] => match step_word(first) {
            Some(word) => step_with(alloc, known, word, rest),
            None => Err(unknown_here(alloc)),
        },
        [] => Err(unknown_here(alloc)),
    }
}

fn step_with(alloc: Global, known: &Known, word: StepWord, words: &[&str]) -> Result<Event, Fault>
    ensures { result ≡ step_with known.now.shards.now known.now.clients.now known.now.lanes (Some word)
        (map (λ w. w.now) words.now) }
{
    match word {
        StepWord::Client => {
            let client = client_of(alloc, known, words)?;
            Ok(Event::Client { client })
        }
        StepWord::Begin => alone(alloc, Event::Begin, words),
        StepWord::Tell => {
            let shard = shard_of(alloc, known, words)?;
            Ok(Event::Tell { shard })
        }
        StepWord::Retell => {
            let (shard, message) = retold_of(alloc, known, words)?;
            Ok(Event::Retell { shard, message })
        }
        StepWord::Advance => alone(alloc, Event::Advance, words),
        StepWord::Apply => applied(alloc, known, words),
        StepWord::Again => applied_again(alloc, known, words),
        StepWord::Report => {
            let recipient = shard_of(alloc, known, words)?;
            Ok(Event::Report { recipient })
        }
        StepWord::Link(word) => {
            let (recipient, donor) = link_of(alloc, known, words)?;
            Ok(word.event(recipient, donor))
        }
    }
}

fn applied(alloc: Global, known: &Known, words: &[&str]) -> Result<Event, Fault>
    ensures { result ≡ step_with known.now.shards.now known.now.clients.now known.now.lanes
        (Some StepWord.Apply) (map (λ w. w.now) words.now) }
{
    let ((recipient, donor), lane) = lane_of(alloc, known, words)?;
    Ok(Event::Apply {
        recipient,
        donor,
        lane,
    })
}

fn applied_again(alloc: Global, known: &Known, words: &[&str]) -> Result<Event, Fault>
    ensures { result ≡ step_with known.now.shards.now known.now.clients.now known.now.lanes
        (Some StepWord.Again) (map (λ w. w.now) words.now) }
{
    let (((recipient, donor), lane), position) = piece_of(alloc, known, words)?;
    Ok(Event::Again {
        recipient,
        donor,
        lane,
        position,
    })
}

/// An event whose step is one word.
fn alone(alloc: Global, event: Event, words: &[&str]) -> Result<Event, Fault>
    ensures { result ≡ alone event (map (λ w. w.now) words.now) }
{
    if words.is_empty() {
        Ok(event)
    } else {
        Err(wrong_kind(alloc))
    }
}

fn client_of(alloc: Global, known: &Known, words: &[&str]) -> Result<u32, Fault>
    ensures { result ≡ client_of known.now.clients.now (map (λ w. w.now) words.now) }
{
    match words {
        [client] => known.client(alloc, client),
        _ => Err(wrong_kind(alloc)),
    }
}

fn shard_of(alloc: Global, known: &Known, words: &[&str]) -> Result<ShardId, Fault>
    ensures { result ≡ shard_of known.now.shards.now (map (λ w. w.now) words.now) }
{
    match words {
        [shard] => known.shard(alloc, shard),
        _ => Err(wrong_kind(alloc)),
    }
}

fn retold_of(alloc: Global, known: &Known, words: &[&str]) -> Result<(ShardId, MessageKind), Fault>
    ensures { result ≡ retold_of known.now.shards.now (map (λ w. w.now) words.now) }
{
    match words {
        [shard, message] => known.retold(alloc, shard, message),
        _ => Err(wrong_kind(alloc)),
    }
}

fn link_of(alloc: Global, known: &Known, words: &[&str]) -> Result<(ShardId, ShardId), Fault>
    ensures { result ≡ link_of known.now.shards.now (map (λ w. w.now) words.now) }
{
    match words {
        [recipient, donor] => known.link(alloc, recipient, donor),
        _ => Err(wrong_kind(alloc)),
    }
}

fn lane_of(alloc: Global, known: &Known, words: &[&str]) -> Result<LaneName, Fault>
    ensures { result ≡ lane_of known.now.shards.now known.now.lanes (map (λ w. w.now) words.now) }
{
    match words {
        [recipient, donor, lane] => known.link_lane(alloc, recipient, donor, lane),
        _ => Err(wrong_kind(alloc)),
    }
}

fn piece_of(alloc: Global, known: &Known, words: &[&str]) -> Result<(LaneName, u32), Fault>
    ensures { result ≡ piece_of known.now.shards.now known.now.lanes (map (λ w. w.now) words.now) }
{
    match words {
        [recipient, donor, lane, rest @ ..] => {
            piece_with(alloc, known, recipient, donor, lane, rest)
        }
        _ => Err(wrong_kind(alloc)),
    }
}

fn piece_with(
    alloc: Global,
    known: &Known,
    recipient: &str,
    donor: &str,
    lane: &str,
    words: &[&str],
) -> Result<(LaneName, u32), Fault>
    ensures { result ≡ piece_with known.now.shards.now known.now.lanes recipient.now donor.now lane.now
        (map (λ w. w.now) words.now) }
{
    match words {
        [position, rest @ ..] => {
            if rest.is_empty() {
                known.piece(alloc, recipient, donor, lane, position)
            } else {
                Err(wrong_kind(alloc))
            }
        }
        [] => Err(wrong_kind(alloc)),
    }
}
