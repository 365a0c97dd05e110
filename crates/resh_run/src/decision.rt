//! What the top call has to say.

ghost use Rattle.resh_run.specs.Said.{IsSaid, BytesSay, CheckSays, FaultSays, FileSays, NumberSays, PrintSays};
ghost use Rattle.resh_run.specs.Said.{SetupSays, SumSays};
ghost use Rattle.std.specs.Prelude.{◌≡◌, false, true};
ghost use Rattle.resh_setup.specs.Validity.{IsValid};
ghost use Rattle.resh_run.specs.Seen.{seen};
ghost use Rattle.resh_run.specs.Top.{needs_cluster};

use crate::cluster::{run_generated, run_on_cluster};
use crate::words::{Asked, read_words};
use resh_config::read_setup;
use resh_coord::End;
use resh_gen::generated_text;
use resh_io::{ReadAllFault, Source, read_all};
use resh_law::schedule_laws;
use resh_model::run_of;
use resh_report::{checked, page, refusal};
use resh_setup::{Setup, SetupFault, Trace, Turns};
use resh_value::{NoMemory, Sequence};
use std::alloc::Global;
use std::mem;

/// The longest input, in bytes.
pub(crate) const INPUT_LIMIT: u64 = 67_108_864;

/// What is to be said, with its text where that isn't fixed.
#[derive(Debug, Drop)]
pub(crate) enum Said {
    Usage,
    ReadFault,
    TooLong,
    NoMemory,
    Refused(Vec<u8>),
    Ran {
        order: Turns,
        end: End,
        page: Vec<u8>,
        trace: Option<Trace>,
    },
    Checked(Vec<u8>),
    Printed(Vec<u8>),
}

/// What a cluster file is read for.
#[derive(Debug, Drop, Clone, Copy, PartialEq, Eq)]
pub(crate) enum Purpose {
    ToRun,
    ToCheck,
}

/// Does what the words ask.
pub(crate) fn decide<S: Source>(alloc: Global, words: &[String], source: &mut S) -> Said
    ensures { IsSaid words.now (seen S.left S.faults source.old source.new) result }
{
    match read_words(alloc, words) {
        Ok(Some(Asked::Plain)) => file_says(alloc, Purpose::ToRun, source),
        Ok(Some(Asked::Check)) => file_says(alloc, Purpose::ToCheck, source),
        Ok(Some(Asked::Generate { number, print })) => number_says(alloc, number, print),
        Ok(Some(Asked::Run { .. })) => Said::Usage,
        Ok(None) => Said::Usage,
        Err(NoMemory) => Said::NoMemory,
    }
}

/// Reads the cluster file, and runs it or counts its parts.
fn file_says<S: Source>(alloc: Global, purpose: Purpose, source: &mut S) -> Said
    ensures { FileSays purpose (seen S.left S.faults source.old source.new) result }
{
    match read_all(alloc, source, INPUT_LIMIT) {
        Ok(bytes) => bytes_say(alloc, purpose, bytes),
        Err(ReadAllFault::Read) => Said::ReadFault,
        Err(ReadAllFault::TooLong { .. }) => Said::TooLong,
        Err(ReadAllFault::NoMemory) => Said::NoMemory,
    }
}

/// The bytes are let go before the setup runs.
fn bytes_say(alloc: Global, purpose: Purpose, bytes: Vec<u8>) -> Said
    ensures { BytesSay purpose bytes.items result }
{
    let read = read_setup(alloc, bytes.as_slice());
    drop(bytes);
    match read {
        Ok(setup) => match purpose {
            Purpose::ToRun => setup_says(alloc, setup),
            Purpose::ToCheck => check_says(alloc, &setup),
        },
        Err(fault) => fault_says(alloc, &fault),
    }
}

fn check_says(alloc: Global, setup: &Setup) -> Said
    ensures { CheckSays setup.now result }
{
    match checked(alloc, setup) {
        Ok(text) => Said::Checked(text),
        Err(NoMemory) => Said::NoMemory,
    }
}

/// What a generated setup comes to: its file, or its run in short.
fn number_says(alloc: Global, number: u32, print: bool) -> Said
    ensures { NumberSays number print result }
{
    if print {
        return print_says(alloc, number);
    }
    sum_says(alloc, number)
}

fn sum_says(alloc: Global, number: u32) -> Said
    ensures { SumSays number result }
{
    schedule_laws();
    match run_generated(alloc, number) {
        Ok(ran) => Said::Ran {
            order: ran.order,
            end: ran.end,
            page: ran.text,
            trace: None,
        },
        Err(NoMemory) => Said::NoMemory,
    }
}

fn print_says(alloc: Global, number: u32) -> Said
    ensures { PrintSays number result }
{
    match generated_text(alloc, number) {
        Ok(text) => Said::Printed(text),
        Err(NoMemory) => Said::NoMemory,
    }
}

fn fault_says(alloc: Global, fault: &SetupFault) -> Said
    ensures { FaultSays fault.now result }
{
    if let SetupFault::NoMemory = fault {
        return Said::NoMemory;
    }
    match refusal(alloc, fault) {
        Ok(text) => Said::Refused(text),
        Err(NoMemory) => Said::NoMemory,
    }
}

/// Whether a run needs a cluster: there are clients, steps or a plan.
fn needs_cluster(setup: &Setup) -> bool
    ensures { result ≡ needs_cluster setup.now }
{
    setup.clients.len() > 0 || setup.steps.len() > 0 || setup.plan.len() > 0
}

fn setup_says(alloc: Global, setup: Setup) -> Said
    requires { IsValid setup }
    ensures { SetupSays setup result }
{
    if needs_cluster(&setup) {
        return cluster_says(alloc, &setup);
    }
    placed_says(alloc, setup)
}

/// The run of a setup on a cluster.
fn cluster_says(alloc: Global, setup: &Setup) -> Said
    requires valid { IsValid setup.now }
    requires needs { needs_cluster setup.now ≡ true }
    ensures { SetupSays setup.now result }
{
    schedule_laws();
    match run_on_cluster(alloc, setup) {
        Ok(ran) => Said::Ran {
            order: ran.order,
            end: ran.end,
            page: ran.text,
            trace: Some(ran.trace),
        },
        Err(NoMemory) => Said::NoMemory,
    }
}

/// The run of a setup that needs no cluster: its documents are placed.
fn placed_says(alloc: Global, mut setup: Setup) -> Said
    requires valid { IsValid setup }
    requires needs { needs_cluster setup ≡ false }
    ensures { SetupSays setup result }
{
    let documents = mem::replace(&mut setup.documents, Sequence::new(alloc));
    match run_of(alloc, &setup.old_map, &setup.new_map, documents) {
        Ok(run) => match page(
            alloc,
            &setup,
            &run.order,
            &run.end,
            &Sequence::new(alloc),
            &run.holdings,
        ) {
            Ok(page) => Said::Ran {
                order: run.order,
                end: run.end,
                page,
                trace: None,
            },
            Err(NoMemory) => Said::NoMemory,
        },
        Err(NoMemory) => Said::NoMemory,
    }
}
