//! Which shards a command goes to.

ghost use Rattle.std.specs.Prelude.{◌≡◌, ◌≢◌, ◌↔◌, Some};
ghost use Rattle.resh_bag.specs.Answer.{doing, reply_of};
ghost use Rattle.resh_bag.specs.Bag.{Bag};
ghost use Rattle.resh_bag.specs.Parts.{targets};
ghost use Rattle.resh_router.specs.Targets.{by_key, by_pattern, shards_of, target_of};

use crate::goal::Target;
use resh_bag::{has_key, has_pattern};
use resh_chunks::ChunkMap;
use resh_command::{Command, Reply};
use resh_filter::Filter;

/// Where a command goes by the map in force. An operation whose filter has the whole shard key goes to one shard, as in
/// MongoDB's manual; an update or a delete of one document asks for `_id` too.
pub fn target(map: &ChunkMap, command: &Command) -> Target
    requires { command.now ≢ Command.Abort }
    ensures target { target_of map.now command.now ≡ Some result }
    ensures shards { shards_of map.now result ≡ targets map.now command.now }
    ensures no_key { (bag : Bag) → (reply_of (doing map.now bag command.now) ≡ Reply.NoKey) ↔ (result ≡ Target.NoKey) }
{
    match command {
        Command::Insert(document) => Target::One(map.owner_of(document)),
        Command::Update { filter, .. } => by_key(map, filter),
        Command::Delete { filter } => by_key(map, filter),
        Command::Find { filter } => by_pattern(map, filter),
        Command::Count { filter } => by_pattern(map, filter),
        Command::Abort => unreachable!(),
    }
}

fn by_key(map: &ChunkMap, filter: &Filter) -> Target
    ensures { result ≡ by_key map.now filter.now }
{
    if has_key(map, filter) {
        return Target::One(map.owner_of(filter.fields()));
    }
    Target::NoKey
}

fn by_pattern(map: &ChunkMap, filter: &Filter) -> Target
    ensures { result ≡ by_pattern map.now filter.now }
{
    if has_pattern(map, filter) {
        return Target::One(map.owner_of(filter.fields()));
    }
    Target::All
}
