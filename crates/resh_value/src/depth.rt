//! How deep documents nest.

ghost use Rattle.std.specs.Prelude.{◌≡◌, ◌-◌, ◌^◌, min, map, suc};
ghost use Rattle.resh_value.specs.Depth.{document_levels, levels_of, greatest};

use crate::fields::Fields;
use crate::value::{Items, Value};

impl Fields<Value> {
    /// The levels of documents and arrays, 1 where none is embedded; it stays at 4,294,967,295.
    #[cycle(depth)]
    pub fn depth(&self) -> u32
        ensures { result ≡ min (document_levels self.now) (2 ^ 32 - 1) }
    {
        let mut deepest = 0u32;
        for (_, value) in self.pairs() {
            deepest = deepest.max(levels_of(value));
        }
        deepest.saturating_add(1)
    }
}

#[cycle(depth)]
fn items_levels(items: &Items) -> u32
    ensures { result ≡ min (suc (greatest (map levels_of items.now))) (2 ^ 32 - 1) }
{
    let mut deepest = 0u32;
    for item in items.as_slice() {
        deepest = deepest.max(levels_of(item));
    }
    deepest.saturating_add(1)
}

#[cycle(depth)]
#[tactic(auto, unfolding(crate::specs::Depth::levels_of))]
fn levels_of(value: &Value) -> u32
    ensures { result ≡ min (levels_of value.now) (2 ^ 32 - 1) }
{
    match value {
        Value::Doc(document) => document.depth(),
        Value::List(items) => items_levels(items),
        Value::Null => 0,
        Value::Int(_) => 0,
        Value::Text(_) => 0,
        Value::Oid(_) => 0,
        Value::Bool(_) => 0,
        Value::Date(_) => 0,
    }
}
