//! Setups of two shards: documents go by `x` under the old map and by `y` under the new one, those below 10 to `a` and
//! the rest to `b`.

ghost use Rattle.std.specs.Prelude.{IfOk};
ghost use Rattle.resh_setup.specs.Validity.{IsValid};

use resh_config::read_setup;
use resh_setup::Setup;
use std::alloc::Global;
use std::test::Fail;

const HEAD: &str =
    r#"{"version":1,"shards":["a","b"],"oldKey":["x"],"newKey":["y"],"lanes":1,"batch":2,
"oldChunks":[{"min":"MinKey","max":[10],"shard":"a"},{"min":[10],"max":"MaxKey","shard":"b"}],
"newChunks":[{"min":"MinKey","max":[10],"shard":"a"},{"min":[10],"max":"MaxKey","shard":"b"}],
"documents":[{"_id":1,"x":1,"y":1},{"_id":2,"x":2,"y":11},{"_id":3,"x":3,"y":12},{"_id":4,"x":11,"y":13}]"#;

/// A setup with further fields, as a cluster file says them.
pub(crate) fn setup_of(alloc: Global, fields: &str) -> Result<Setup, Fail>
    ensures { IfOk result IsValid }
{
    let file = format!(in alloc; "{HEAD},{fields}}}")?;
    match read_setup(alloc, file.as_bytes()) {
        Ok(setup) => Ok(setup),
        Err(_) => Err(Fail::from("no setup")),
    }
}
