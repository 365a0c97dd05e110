//! The lane of an `_id`.

ghost use Rattle.std.specs.Prelude.{◌≡◌, ◌<◌, IfOk, IfSome};
ghost use Rattle.resh_feed.specs.Lanes.{id_lane, item_lane, lane_of};

use resh_oplog::What;
use resh_value::{NoMemory, Value, Words};
use std::alloc::Global;

/// The lane of a text: the sum of its bytes modulo the number of lanes.
pub fn lane_of(id_text: &Words, lanes: u32) -> u32
    requires lanes { 0 < lanes }
    ensures lane { result ≡ lane_of id_text.now lanes }
    ensures within { result < lanes }
{
    remainder(id_text.as_bytes(), lanes as u64) as u32
}

fn remainder(bytes: &[u8], lanes: u64) -> u64
    requires positive { 0 < lanes }
    requires lanes { lanes < 4294967296 }
    ensures lane { result ≡ lane_of bytes.now lanes }
    ensures within { result < lanes }
{
    let mut rest = 0;
    for byte in bytes {
        rest = (rest + *byte as u64) % lanes;
    }
    rest
}

/// The lane of an `_id`.
pub fn id_lane(id: &Value, alloc: Global, lanes: u32) -> Result<u32, NoMemory>
    requires lanes { 0 < lanes }
    ensures lane { IfOk result (λ lane. lane ≡ id_lane id.now lanes) }
    ensures within { IfOk result (λ lane. lane < lanes) }
{
    let text = id.text(alloc)?;
    Ok(lane_of(&text, lanes))
}

/// The lane of the `_id` that an item writes; `None` exactly where it writes none.
pub(crate) fn item_lane(what: &What, alloc: Global, lanes: u32) -> Result<Option<u32>, NoMemory>
    requires lanes { 0 < lanes }
    ensures lane { IfOk result (λ lane. lane ≡ item_lane lanes what.now) }
    ensures within { IfOk result (λ lane. IfSome lane (λ n. n < lanes)) }
{
    match what.id() {
        Some(id) => Ok(Some(id_lane(id, alloc, lanes)?)),
        None => Ok(None),
    }
}
