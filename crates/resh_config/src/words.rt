//! The words of steps and plans: shards, clients, lanes and numbers.

ghost use Rattle.std.specs.Prelude.{◌≡◌, ◌≤◌, true, IfOk, length, map, position};
ghost use Rattle.std.specs.Char.{is_ascii_digit};
ghost use Rattle.std.specs.List.{list_all};
ghost use Rattle.std.specs.Str.Parse.{digits_value};
ghost use Rattle.resh_value.specs.Names.{same_name};
ghost use Rattle.resh_value.specs.Outcome.{Gives};
ghost use Rattle.resh_setup.specs.Validity.{is_called};
ghost use Rattle.resh_config.specs.Names.{shard_named};
ghost use Rattle.resh_config.specs.Steps.{words_of, is_number, number_named, message_named, client_named, lane_named, link_named, retold_named, link_lane_named, piece_named};

use crate::faults::{Fault, unknown_here, wrong_kind};
use crate::names::{is_node_name, is_same};
use resh_setup::{Client, Clients, MessageKind};
use resh_value::{Names, ShardId, Words};
use std::alloc::{AllocError, Global};

/// A decimal number has so many digits at most.
const MOST_DIGITS: usize = 9;

/// The words of a text, which is cut at each space.
pub(crate) fn words_of(alloc: Global, text: &str) -> Result<Vec<&str>, AllocError>
    ensures { IfOk result (λ v. map (λ n. n.now) v.items ≡ words_of text.now) }
{
    text.split(' ').collect(alloc)
}

pub(crate) fn shard_named(alloc: Global, name: &str, shards: &[Words]) -> Result<ShardId, Fault>
    requires { length shards.now ≤ 8 }
    ensures { result ≡ shard_named shards.now name.now }
{
    if !is_node_name(name) {
        return Err(wrong_kind(alloc));
    }
    match place_of(name, shards) {
        Some(place) => Ok(ShardId(place as u32)),
        None => Err(unknown_here(alloc)),
    }
}

fn place_of(name: &str, names: &[Words]) -> Option<usize>
    ensures { result ≡ position (same_name name.now) names.now }
{
    names.iter().position(|other| is_same(name, other.as_str()))
}

fn client_named(alloc: Global, name: &str, clients: &[Client]) -> Result<u32, Fault>
    requires { length clients.now ≤ 16 }
    ensures { result ≡ client_named clients.now name.now }
{
    if !is_node_name(name) {
        return Err(wrong_kind(alloc));
    }
    match client_place(name, clients) {
        Some(place) => Ok(place as u32),
        None => Err(unknown_here(alloc)),
    }
}

fn client_place(name: &str, clients: &[Client]) -> Option<usize>
    ensures { result ≡ position (is_called name.now) clients.now }
{
    clients
        .iter()
        .position(|client| is_same(name, client.name.as_str()))
}

/// The message of a name.
fn message_named(alloc: Global, name: &str) -> Result<MessageKind, Fault>
    ensures { result ≡ message_named name.now }
{
    if is_same(name, "prepare") {
        return Ok(MessageKind::Prepare);
    }
    if is_same(name, "donate") {
        return Ok(MessageKind::Donate);
    }
    if is_same(name, "block") {
        return Ok(MessageKind::Block);
    }
    if is_same(name, "install") {
        return Ok(MessageKind::Install);
    }
    if is_same(name, "release") {
        return Ok(MessageKind::Release);
    }
    Err(wrong_kind(alloc))
}

/// A decimal number without a leading zero but in `0`.
pub(crate) fn number_named(alloc: Global, text: &str) -> Result<u32, Fault>
    ensures { result ≡ number_named text.now }
{
    if is_number(text) {
        Ok(value_of(text))
    } else {
        Err(wrong_kind(alloc))
    }
}

fn is_number(text: &str) -> bool
    ensures { result ≡ is_number text.now }
{
    let digits = text.as_bytes();
    !digits.is_empty()
        && digits.len() <= MOST_DIGITS
        && are_digits(digits)
        && (digits[0] != b'0' || digits.len() == 1)
}

fn are_digits(bytes: &[u8]) -> bool
    ensures { result ≡ list_all is_ascii_digit bytes.now }
{
    bytes.iter().all(|b| b.is_ascii_digit())
}

fn value_of(text: &str) -> u32
    requires { is_number text.now ≡ true }
    ensures { result ≡ digits_value 10 text.now }
{
    match text.parse::<u32>() {
        Ok(number) => number,
        Err(_) => unreachable!(),
    }
}

/// A recipient and a donor, and a lane.
pub(crate) type LaneName = ((ShardId, ShardId), u32);

/// What the words of steps and plans may name.
#[derive(Drop)]
pub(crate) struct Known<'a> {
    pub(crate) shards: &'a Names,
    pub(crate) clients: &'a Clients,
    pub(crate) lanes: u32,
    ghost few_shards: { length shards.now ≤ 8 },
    ghost few_clients: { length clients.now ≤ 16 },
}

impl Known<'_> {
    pub(crate) fn shard(&self, alloc: Global, name: &str) -> Result<ShardId, Fault>
        ensures { result ≡ shard_named self.now.shards.now name.now }
    {
        shard_named(alloc, name, self.shards.as_slice())
    }

    pub(crate) fn client(&self, alloc: Global, name: &str) -> Result<u32, Fault>
        ensures { result ≡ client_named self.now.clients.now name.now }
    {
        client_named(alloc, name, self.clients.as_slice())
    }

    /// A lane is a number below so many.
    pub(crate) fn lane(&self, alloc: Global, text: &str) -> Result<u32, Fault>
        ensures { result ≡ lane_named self.now.lanes text.now }
    {
        let lane = number_named(alloc, text)?;
        if lane < self.lanes {
            Ok(lane)
        } else {
            Err(wrong_kind(alloc))
        }
    }

    /// A link's recipient and donor.
    pub(crate) fn link(
        &self,
        alloc: Global,
        recipient: &str,
        donor: &str,
    ) -> Result<(ShardId, ShardId), Fault>
        ensures { result ≡ link_named self.now.shards.now recipient.now donor.now }
    {
        let recipient = self.shard(alloc, recipient)?;
        let donor = self.shard(alloc, donor)?;
        Ok((recipient, donor))
    }

    /// A shard, and a message to it.
    pub(crate) fn retold(
        &self,
        alloc: Global,
        shard: &str,
        message: &str,
    ) -> Result<(ShardId, MessageKind), Fault>
        ensures { result ≡ retold_named self.now.shards.now shard.now message.now }
    {
        let shard = self.shard(alloc, shard)?;
        let message = message_named(alloc, message)?;
        Ok((shard, message))
    }

    /// A link's recipient and donor, and a lane of the recipient.
    pub(crate) fn link_lane(
        &self,
        alloc: Global,
        recipient: &str,
        donor: &str,
        lane: &str,
    ) -> Result<LaneName, Fault>
        ensures { result ≡ link_lane_named self.now.shards.now self.now.lanes recipient.now donor.now lane.now }
    {
        let link = self.link(alloc, recipient, donor)?;
        let lane = self.lane(alloc, lane)?;
        Ok((link, lane))
    }

    /// And a position in the lane's feed.
    pub(crate) fn piece(
        &self,
        alloc: Global,
        recipient: &str,
        donor: &str,
        lane: &str,
        position: &str,
    ) -> Result<(LaneName, u32), Fault>
        ensures { result ≡ piece_named self.now.shards.now self.now.lanes
            recipient.now donor.now lane.now position.now }
    {
        let lane = self.link_lane(alloc, recipient, donor, lane)?;
        let position = number_named(alloc, position)?;
        Ok((lane, position))
    }
}
