//! The texts of refusals.

ghost use Rattle.std.specs.Prelude.{◌≡◌, ◌++◌, IfOk};
ghost use Rattle.resh_report.specs.Refusals.{refusal_text, fault_text, value_fault_text, chunk_fault_text, update_fault_text, filter_fault_text, at_path, in_update, of_row, over_limit};

use crate::text::{append, append_line_feed, append_number};
use resh_chunks::ChunkFault;
use resh_filter::FilterFault;
use resh_ops::UpdateFault;
use resh_setup::SetupFault;
use resh_value::{NoMemory, ValueFault, Words, append_quoted};
use std::alloc::Global;

/// The line of a refusal.
pub fn refusal(alloc: Global, fault: &SetupFault) -> Result<Vec<u8>, NoMemory>
    ensures { IfOk result (λ bytes. bytes.items ≡ refusal_text fault.now) }
{
    let out = append(Vec::new(alloc), "refused: ")?;
    append_line_feed(append_fault(out, fault)?)
}

fn append_fault(out: Vec<u8>, fault: &SetupFault) -> Result<Vec<u8>, NoMemory>
    ensures { IfOk result (λ bytes. bytes.items ≡ out.items ++ fault_text fault.now) }
{
    match fault {
        SetupFault::NotJson => append(out, "not JSON"),
        SetupFault::Missing { path } => append_at_path(out, "missing", path),
        SetupFault::WrongKind { path } => append_at_path(out, "wrong kind", path),
        SetupFault::UnknownName { path } => append_at_path(out, "unknown name", path),
        SetupFault::Value(fault) => append_value_fault(out, fault),
        SetupFault::Chunks { path, fault } => append_chunk_fault(out, path, fault),
        SetupFault::Update { path, fault } => append_update_fault(out, path, fault),
        SetupFault::Filter(fault) => append_filter_fault(out, fault),
        SetupFault::SameId { row } => append_of_row(out, "same id", *row),
        SetupFault::NoId { path } => append_at_path(out, "no id", path),
        SetupFault::OverLimit { path, limit } => append_over_limit(out, *limit, path),
        SetupFault::NoMemory => append(out, "no memory"),
    }
}

fn append_value_fault(out: Vec<u8>, fault: &ValueFault) -> Result<Vec<u8>, NoMemory>
    ensures { IfOk result (λ bytes. bytes.items ≡ out.items ++ value_fault_text fault.now) }
{
    match fault {
        ValueFault::NotWhole { path } => append_at_path(out, "not whole", path),
        ValueFault::BadTag { path } => append_at_path(out, "bad tag", path),
        ValueFault::TooDeep { path } => append_at_path(out, "too deep", path),
        ValueFault::DollarName { path } => append_at_path(out, "dollar name", path),
        ValueFault::NotDocument { path } => append_at_path(out, "wrong kind", path),
        ValueFault::NoMemory => append(out, "no memory"),
    }
}

fn append_chunk_fault(out: Vec<u8>, path: &Words, fault: &ChunkFault) -> Result<Vec<u8>, NoMemory>
    ensures { IfOk result (λ bytes. bytes.items ≡ out.items ++ chunk_fault_text path.now fault.now) }
{
    match *fault {
        ChunkFault::FirstNotMin => append_at_path(out, "first not min", path),
        ChunkFault::LastNotMax => append_at_path(out, "last not max", path),
        ChunkFault::EmptyRange { row } => append_at_row(out, "empty range", row, path),
        ChunkFault::Gap { row } => append_at_row(out, "gap", row, path),
        ChunkFault::Overlap { row } => append_at_row(out, "overlap", row, path),
        ChunkFault::UnknownShard { row } => append_at_row(out, "unknown shard", row, path),
        ChunkFault::WrongLength { row } => append_at_row(out, "wrong length", row, path),
    }
}

fn append_update_fault(out: Vec<u8>, path: &Words, fault: &UpdateFault) -> Result<Vec<u8>, NoMemory>
    ensures { IfOk result (λ bytes. bytes.items ≡ out.items ++ update_fault_text path.now fault.now) }
{
    match fault {
        UpdateFault::UnknownOperator { name } => append_in_update(
            out,
            "unknown operator",
            name,
            path,
        ),
        UpdateFault::Conflict { path: inside } => append_in_update(out, "conflict", inside, path),
        UpdateFault::IdPath => append_at_path(out, "id path", path),
        UpdateFault::BadOperand { path: inside } => append_in_update(
            out,
            "bad operand",
            inside,
            path,
        ),
        UpdateFault::Value(fault) => append_value_fault(out, fault),
        UpdateFault::NoMemory => append(out, "no memory"),
    }
}

fn append_filter_fault(out: Vec<u8>, fault: &FilterFault) -> Result<Vec<u8>, NoMemory>
    ensures { IfOk result (λ bytes. bytes.items ≡ out.items ++ filter_fault_text fault.now) }
{
    match fault {
        FilterFault::DottedName { path } => append_at_path(out, "dotted name", path),
        FilterFault::Value(fault) => append_value_fault(out, fault),
        FilterFault::NoMemory => append(out, "no memory"),
    }
}

fn append_over_limit(out: Vec<u8>, limit: u64, path: &Words) -> Result<Vec<u8>, NoMemory>
    ensures { IfOk result (λ bytes. bytes.items ≡ out.items ++ over_limit limit path.now) }
{
    append_path(append_number(append(out, "over limit ")?, limit)?, path)
}

pub(crate) fn append_at_path(out: Vec<u8>, what: &str, path: &Words) -> Result<Vec<u8>, NoMemory>
    ensures { IfOk result (λ bytes. bytes.items ≡ out.items ++ at_path what.now path.now) }
{
    append_path(append(out, what)?, path)
}

fn append_in_update(
    out: Vec<u8>,
    what: &str,
    inside: &Words,
    path: &Words,
) -> Result<Vec<u8>, NoMemory>
    ensures { IfOk result (λ bytes. bytes.items ≡ out.items ++ in_update what.now inside.now path.now) }
{
    append_path(append_at_path(out, what, inside)?, path)
}

fn append_at_row(out: Vec<u8>, what: &str, row: u64, path: &Words) -> Result<Vec<u8>, NoMemory>
    ensures { IfOk result (λ bytes. bytes.items ≡ out.items ++ at_path (of_row what.now row) path.now) }
{
    append_path(append_of_row(out, what, row)?, path)
}

fn append_of_row(out: Vec<u8>, what: &str, row: u64) -> Result<Vec<u8>, NoMemory>
    ensures { IfOk result (λ bytes. bytes.items ≡ out.items ++ of_row what.now row) }
{
    append_number(append(append(out, what)?, " row ")?, row)
}

fn append_path(out: Vec<u8>, path: &Words) -> Result<Vec<u8>, NoMemory>
    ensures { IfOk result (λ bytes. bytes.items ≡ at_path out.items path.now) }
{
    append_quoted(append(out, " ")?, path.as_str())
}
