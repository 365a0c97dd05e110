//! Reading a cluster file.
#![tactic(auto)]

mod chunks;
mod clients;
mod cluster_file;
mod commands;
mod documents;
mod faults;
mod form;
mod lists;
mod maps;
mod names;
mod plan;
mod step_word;
mod steps;
mod walk;
mod words;

ghost use Rattle.std.specs.Prelude.{◌≢◌, IfOk, MatchResult};
ghost use Rattle.resh_config.specs.ClusterFile.{IsSetup, IsRefused};
ghost use Rattle.resh_setup.specs.Validity.{IsValid};

use cluster_file::setup_in;
use faults::answered;
use resh_setup::{Setup, SetupFault};
use serde_json::Value as Json;
use std::alloc::Global;

/// The setup that the bytes of a cluster file are, or the first fault of the walk through it.
pub fn read_setup(alloc: Global, bytes: &[u8]) -> Result<Setup, SetupFault>
    ensures exact { MatchResult result (IsSetup bytes.now)
        (λ fault. fault ≢ SetupFault.NoMemory → IsRefused bytes.now fault) }
    ensures valid { IfOk result IsValid }
{
    match Json::from_slice(alloc, bytes) {
        Ok(json) => match setup_in(alloc, &json) {
            Ok(setup) => Ok(setup),
            Err(fault) => Err(answered(alloc, fault)),
        },
        Err(error) => {
            if error.is_memory() {
                return Err(SetupFault::NoMemory);
            }
            Err(SetupFault::NotJson)
        }
    }
}
