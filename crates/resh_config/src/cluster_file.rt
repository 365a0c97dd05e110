//! The fields of a cluster file, in their order.

ghost use Rattle.std.specs.Prelude.{◌≤◌, length};
ghost use Rattle.serde_json.specs.View.{view, members_view};
ghost use Rattle.resh_value.specs.Outcome.{Gives};
ghost use Rattle.resh_config.specs.ClusterFile.{maps_in, rest_in, setup_of, setup_in};

use crate::chunks::Chunks;
use crate::clients::ClientList;
use crate::documents::Collection;
use crate::faults::Fault;
use crate::maps::Maps;
use crate::names::{Key, Shards};
use crate::plan::PlanRows;
use crate::steps::Steps;
use crate::walk::{NumberIn, optional, required, row_with};
use crate::words::Known;
use resh_setup::{Clients, Events, Plan, Setup};
use resh_value::WalkFault;
use serde_json::{Map, Value as Json};
use std::alloc::Global;

/// The setup that a JSON value is, or the first fault of the walk through it.
pub(crate) fn setup_in(alloc: Global, json: &Json) -> Result<Setup, Fault>
    ensures { Gives WalkFault.NoMemory result (setup_in (view json.now)) }
{
    let names = [
        "version",
        "shards",
        "oldKey",
        "newKey",
        "oldChunks",
        "newChunks",
        "documents",
        "clients",
        "lanes",
        "batch",
        "steps",
        "plan",
    ];
    match row_with(alloc, json, &names) {
        Ok(members) => setup_of(alloc, members),
        Err(fault) => Err(fault),
    }
}

#[tactic(auto, using(crate::proofs::SetupLemmas::few_in_maps))]
fn setup_of(alloc: Global, members: &Map<String, Json>) -> Result<Setup, Fault>
    ensures { Gives WalkFault.NoMemory result (setup_of (members_view members.now.entries)) }
{
    match maps_in(alloc, members) {
        Ok(maps) => rest_in(alloc, maps, members),
        Err(fault) => Err(fault),
    }
}

/// The fields before the documents.
#[tactic(auto, using(crate::proofs::KeyLemmas::few_shards))]
fn maps_in(alloc: Global, members: &Map<String, Json>) -> Result<Maps, Fault>
    ensures { Gives WalkFault.NoMemory result (maps_in (members_view members.now.entries)) }
{
    required(alloc, members, "version", NumberIn { low: 1, high: 1 })?;
    let shards = required(alloc, members, "shards", Shards)?;
    let old_key = required(alloc, members, "oldKey", Key)?;
    let new_key = required(alloc, members, "newKey", Key)?;
    let old_chunks = Chunks {
        shards: &shards,
        key: old_key,
    };
    let old_map = required(alloc, members, "oldChunks", old_chunks)?;
    let new_chunks = Chunks {
        shards: &shards,
        key: new_key,
    };
    let new_map = required(alloc, members, "newChunks", new_chunks)?;
    Ok(Maps {
        shards,
        old_map,
        new_map,
    })
}

/// The documents and the fields after them.
#[tactic(auto, using(crate::proofs::ClientLemmas::few_clients))]
fn rest_in(alloc: Global, maps: Maps, members: &Map<String, Json>) -> Result<Setup, Fault>
    requires { length maps.shards ≤ 8 }
    ensures { Gives WalkFault.NoMemory result (rest_in maps (members_view members.now.entries)) }
{
    let Maps {
        shards,
        old_map,
        new_map,
    } = maps;
    let documents = required(alloc, members, "documents", Collection { map: &old_map })?;
    let clients = optional(alloc, members, "clients", ClientList, Clients::new(alloc))?;
    let lanes = optional(alloc, members, "lanes", NumberIn { low: 1, high: 16 }, 4)?;
    let batch = optional(alloc, members, "batch", NumberIn { low: 1, high: 500 }, 500)?;
    let known = Known {
        shards: &shards,
        clients: &clients,
        lanes,
    };
    let steps = optional(
        alloc,
        members,
        "steps",
        Steps { known: &known },
        Events::new(alloc),
    )?;
    let plan = optional(
        alloc,
        members,
        "plan",
        PlanRows { known: &known },
        Plan::new(alloc),
    )?;
    Ok(Setup {
        shards,
        old_map,
        new_map,
        documents,
        clients,
        lanes,
        batch,
        steps,
        plan,
    })
}
