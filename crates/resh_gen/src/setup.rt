//! The setup of a number.

ghost use Rattle.std.specs.Prelude.{◌≡◌, [], ◌∷◌, IfOk};
ghost use Rattle.resh_gen.specs.Generated.{bound_at, chunk, clients, generated, map_over, rows_on, shard_names};
ghost use Rattle.resh_gen.specs.Streams.{AreAsked};

use crate::commands::{Asked, all_commands};
use crate::documents::first_documents;
use crate::draws::Draws;
use resh_chunks::{Bound, ChunkMap, ChunkRow, KeyPattern};
use resh_command::Commands;
use resh_setup::{Client, Clients, Setup};
use resh_value::{Names, NoMemory, Sequence, ShardId, Value, Words};
use std::alloc::Global;

/// The setup of a number: 50,000 documents on four shards, a map that lays each chunk on the next shard, and four
/// clients that ask 20,000 commands.
pub fn generate(alloc: Global, number: u32) -> Result<Setup, NoMemory>
    ensures { IfOk result (λ setup. setup ≡ generated number) }
{
    let mut draws = Draws::new(number);
    let documents = first_documents(alloc, &mut draws, 50_000)?;
    let asked = all_commands(alloc, number, draws, 5_000)?;
    Ok(Setup {
        shards: shard_names(alloc)?,
        old_map: map_over(alloc, "x", [0, 1, 2, 3])?,
        new_map: map_over(alloc, "y", [1, 2, 3, 0])?,
        documents,
        clients: clients_of(alloc, number, asked)?,
        lanes: 4,
        batch: 50,
        steps: Sequence::new(alloc),
        plan: Sequence::new(alloc),
    })
}

fn shard_names(alloc: Global) -> Result<Names, NoMemory>
    ensures { IfOk result (λ names. names ≡ shard_names) }
{
    let mut names = Vec::with_capacity(alloc, 4)?;
    names.push(Words::of(alloc, "s0")?)?;
    names.push(Words::of(alloc, "s1")?)?;
    names.push(Words::of(alloc, "s2")?)?;
    names.push(Words::of(alloc, "s3")?)?;
    Ok(Sequence::from_vec(names))
}

/// A map over a field, whose four chunks lie on these shards.
fn map_over(alloc: Global, name: &str, shards: [u32; 4]) -> Result<ChunkMap, NoMemory>
    ensures { IfOk result (λ m. m ≡ map_over name.now shards) }
{
    let pattern = pattern_of(alloc, name)?;
    let rows = rows_on(alloc, shards)?;
    match ChunkMap::new(pattern, rows, 4) {
        Ok(map) => Ok(map),
        Err(_) => Err(NoMemory),
    }
}

fn pattern_of(alloc: Global, name: &str) -> Result<KeyPattern, NoMemory>
    ensures { IfOk result (λ pattern. pattern ≡ name.now ∷ []) }
{
    let mut names = Vec::with_capacity(alloc, 1)?;
    names.push(Words::of(alloc, name)?)?;
    match KeyPattern::new(Sequence::from_vec(names)) {
        Ok(pattern) => Ok(pattern),
        Err(_) => Err(NoMemory),
    }
}

/// Four chunks that lie on these shards.
fn rows_on(alloc: Global, shards: [u32; 4]) -> Result<Vec<ChunkRow>, NoMemory>
    ensures { IfOk result (λ rows. rows.items ≡ rows_on shards) }
{
    let [first, second, third, fourth] = shards;
    let mut rows = Vec::with_capacity(alloc, 4)?;
    rows.push(chunk(Bound::Min, bound_at(alloc, 250)?, first))?;
    rows.push(chunk(bound_at(alloc, 250)?, bound_at(alloc, 500)?, second))?;
    rows.push(chunk(bound_at(alloc, 500)?, bound_at(alloc, 750)?, third))?;
    rows.push(chunk(bound_at(alloc, 750)?, Bound::Max, fourth))?;
    Ok(rows)
}

fn chunk(min: Bound, max: Bound, shard: u32) -> ChunkRow
    ensures { result ≡ chunk min max shard }
{
    ChunkRow {
        min,
        max,
        shard: ShardId(shard),
    }
}

fn bound_at(alloc: Global, number: u32) -> Result<Bound, NoMemory>
    ensures { IfOk result (λ bound. bound ≡ bound_at number) }
{
    let mut key = Vec::with_capacity(alloc, 1)?;
    key.push(Value::Int(number as i64))?;
    Ok(Bound::At(Sequence::from_vec(key)))
}

#[tactic(auto, using(crate::proofs::Places::clients_are))]
fn clients_of(alloc: Global, number: u32, asked: Asked) -> Result<Clients, NoMemory>
    requires { AreAsked number 5000 asked }
    ensures { IfOk result (λ all. all ≡ clients number) }
{
    let Asked {
        first,
        second,
        third,
        fourth,
    } = asked;
    let mut clients = Vec::with_capacity(alloc, 4)?;
    clients.push(client(alloc, "c0", first)?)?;
    clients.push(client(alloc, "c1", second)?)?;
    clients.push(client(alloc, "c2", third)?)?;
    clients.push(client(alloc, "c3", fourth)?)?;
    Ok(Sequence::from_vec(clients))
}

fn client(alloc: Global, name: &str, commands: Commands) -> Result<Client, NoMemory>
    ensures { IfOk result (λ client. client ≡ record { name = name.now; commands = commands }) }
{
    Ok(Client {
        name: Words::of(alloc, name)?,
        commands,
    })
}
