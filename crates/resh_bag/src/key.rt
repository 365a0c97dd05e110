//! Whether a filter names one shard, and one document there.

ghost use Rattle.std.specs.Prelude.{◌≡◌};
ghost use Rattle.std.specs.List.{list_all};
ghost use Rattle.std.specs.Option.{is_some};
ghost use Rattle.resh_value.specs.Lookup.{field_of};
ghost use Rattle.resh_bag.specs.Answer.{has_key as filter_has_key};
ghost use Rattle.resh_bag.specs.Parts.{has_pattern as filter_has_pattern};

use resh_chunks::ChunkMap;
use resh_filter::Filter;
use resh_value::{Document, Words};

/// Whether the filter has `_id` and each field of the shard key, as an update and a delete of one document ask.
pub fn has_key(map: &ChunkMap, filter: &Filter) -> bool
    ensures { result ≡ filter_has_key map.now filter.now }
{
    filter.fields().get_by("_id").is_some() && has_pattern(map, filter)
}

/// Whether the filter has each field of the shard key, so that its documents stand on one shard.
pub fn has_pattern(map: &ChunkMap, filter: &Filter) -> bool
    ensures { result ≡ filter_has_pattern map.now filter.now }
{
    has_names(filter.fields(), map.pattern().names().as_slice())
}

fn has_names(fields: &Document, names: &[Words]) -> bool
    ensures { result ≡ list_all (λ name. is_some (field_of fields.now name)) names.now }
{
    names.iter().all(|name| fields.get(name).is_some())
}
