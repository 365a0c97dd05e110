//! How many shards and clients a setup has.

ghost use Rattle.std.specs.Prelude.{◌≡◌, length, IfOk};

use resh_setup::Setup;
use resh_value::NoMemory;

pub(crate) fn shard_count(setup: &Setup) -> Result<u32, NoMemory>
    ensures { IfOk result (λ count. count ≡ length setup.now.shards) }
{
    match u32::try_from(setup.shards.len()) {
        Ok(count) => Ok(count),
        Err(_) => Err(NoMemory),
    }
}

pub(crate) fn client_count(setup: &Setup) -> Result<u32, NoMemory>
    ensures { IfOk result (λ count. count ≡ length setup.now.clients) }
{
    match u32::try_from(setup.clients.len()) {
        Ok(count) => Ok(count),
        Err(_) => Err(NoMemory),
    }
}
