//! The names of shards and of a key's fields.

ghost use Rattle.std.specs.Prelude.{◌≡◌, ◌==◌, not, None};
ghost use Rattle.std.specs.List.{list_any, list_all};
ghost use Rattle.serde_json.specs.View.{view};
ghost use Rattle.resh_chunks.specs.Pattern.{pattern_fault};
ghost use Rattle.resh_value.specs.Names.{same_name};
ghost use Rattle.resh_value.specs.Outcome.{Gives};
ghost use Rattle.resh_setup.specs.Names.{is_node_byte, is_node_name, is_field_name, is_new, is_shard_name, is_key_name};
ghost use Rattle.resh_config.specs.Names.{shard_name_in, shards_in, key_name_in, key_in};
ghost use Rattle.resh_config.specs.Walk.{accept};

use crate::faults::{Fault, wrong_kind};
use crate::lists::{ItemReader, list_in, some_of};
use crate::walk::{FieldReader, text_in};
use resh_chunks::KeyPattern;
use resh_value::{Names, WalkFault, Words};
use serde_json::Value as Json;
use std::alloc::Global;

/// So many shards there may be.
const MOST_SHARDS: u64 = 8;
/// So many fields a key may have.
const MOST_KEY_NAMES: u64 = 3;
/// So many bytes the name of a shard may have.
const LONGEST_NODE_NAME: usize = 16;

/// Reads the names of the shards.
#[derive(Drop)]
pub(crate) struct Shards;

impl FieldReader for Shards {
    type Content = Names;

    ghost reads = { λ _. shards_in };

    fn read(self, alloc: Global, json: &Json) -> Result<Names, Fault> {
        match list_in(alloc, &mut ShardName, MOST_SHARDS, json) {
            Ok(names) => some_of(alloc, names),
            Err(fault) => Err(fault),
        }
    }
}

#[derive(Drop)]
struct ShardName;

impl ItemReader for ShardName {
    type Item = Words;

    ghost reads = { λ _. shard_name_in };

    fn read(&mut self, alloc: Global, before: &[Words], json: &Json) -> Result<Words, Fault> {
        match text_in(alloc, json) {
            Ok(name) => accept(alloc, is_shard_name(before, name), name),
            Err(fault) => Err(fault),
        }
    }
}

/// Reads the names of a key's fields.
#[derive(Drop)]
pub(crate) struct Key;

#[tactic(auto, using(crate::proofs::KeyLemmas::key_is_pattern))]
impl FieldReader for Key {
    type Content = KeyPattern;

    ghost reads = { λ _. key_in };

    fn read(self, alloc: Global, json: &Json) -> Result<KeyPattern, Fault> {
        match key_names(alloc, json) {
            Ok(names) => Ok(pattern_of(names)),
            Err(fault) => Err(fault),
        }
    }
}

fn pattern_of(names: Names) -> KeyPattern
    requires { pattern_fault names ≡ None }
    ensures { result ≡ names }
{
    match KeyPattern::new(names) {
        Ok(pattern) => pattern,
        Err(_) => unreachable!(),
    }
}

fn key_names(alloc: Global, json: &Json) -> Result<Names, Fault>
    ensures { Gives WalkFault.NoMemory result (key_in (view json.now)) }
{
    match list_in(alloc, &mut KeyName, MOST_KEY_NAMES, json) {
        Ok(names) => some_of(alloc, names),
        Err(fault) => Err(fault),
    }
}

#[derive(Drop)]
struct KeyName;

impl ItemReader for KeyName {
    type Item = Words;

    ghost reads = { λ _. key_name_in };

    fn read(&mut self, alloc: Global, before: &[Words], json: &Json) -> Result<Words, Fault> {
        match text_in(alloc, json) {
            Ok(name) => accept(alloc, is_key_name(before, name), name),
            Err(fault) => Err(fault),
        }
    }
}

pub(crate) fn accept(alloc: Global, good: bool, name: &str) -> Result<Words, Fault>
    ensures { Gives WalkFault.NoMemory result (accept good name.now) }
{
    if good {
        Ok(Words::of(alloc, name)?)
    } else {
        Err(wrong_kind(alloc))
    }
}

/// Whether a text has the form of a shard's name: 1 to 16 of `a` to `z`, `0` to `9` and `_`.
pub(crate) fn is_node_name(name: &str) -> bool
    ensures { result ≡ is_node_name name.now }
{
    let bytes = name.as_bytes();
    !bytes.is_empty() && bytes.len() <= LONGEST_NODE_NAME && has_node_bytes_alone(bytes)
}

fn has_node_bytes_alone(bytes: &[u8]) -> bool
    ensures { result ≡ list_all is_node_byte bytes.now }
{
    bytes.iter().all(|b| b.is_ascii_lowercase() || b.is_ascii_digit() || *b == b'_')
}

fn is_field_name(name: &str) -> bool
    ensures { result ≡ is_field_name name.now }
{
    let bytes = name.as_bytes();
    !bytes.is_empty() && bytes[0] != b'$' && has_no_dot(bytes)
}

fn has_no_dot(bytes: &[u8]) -> bool
    ensures { result ≡ list_all (λ b. not (b == 46)) bytes.now }
{
    bytes.iter().all(|b| *b != b'.')
}

fn is_shard_name(before: &[Words], name: &str) -> bool
    ensures { result ≡ is_shard_name before.now name.now }
{
    is_node_name(name) && !is_same(name, "coordinator") && is_new(before, name)
}

fn is_key_name(before: &[Words], name: &str) -> bool
    ensures { result ≡ is_key_name before.now name.now }
{
    is_field_name(name) && is_new(before, name)
}

fn is_new(before: &[Words], name: &str) -> bool
    ensures { result ≡ is_new before.now name.now }
{
    !is_among(name, before)
}

fn is_among(name: &str, names: &[Words]) -> bool
    ensures { result ≡ list_any (same_name name.now) names.now }
{
    names.iter().any(|other| is_same(name, other.as_str()))
}

pub(crate) fn is_same(a: &str, b: &str) -> bool
    ensures { result ≡ same_name a.now b.now }
{
    a.as_bytes() == b.as_bytes()
}
