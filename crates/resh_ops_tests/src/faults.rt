//! Faults as texts.

use resh_filter::FilterFault;
use resh_ops::{ChangeFault, UpdateFault};
use resh_value::ValueFault;
use std::alloc::{AllocError, Global};

fn value_fault_text(alloc: Global, fault: &ValueFault) -> Result<String, AllocError> {
    match fault {
        ValueFault::NotWhole { path } => format!(in alloc; "not whole {}", path.as_str()),
        ValueFault::BadTag { path } => format!(in alloc; "bad tag {}", path.as_str()),
        ValueFault::TooDeep { path } => format!(in alloc; "too deep {}", path.as_str()),
        ValueFault::DollarName { path } => format!(in alloc; "dollar name {}", path.as_str()),
        ValueFault::NotDocument { path } => format!(in alloc; "not document {}", path.as_str()),
        ValueFault::NoMemory => String::from_str(alloc, "no memory"),
    }
}

pub(crate) fn filter_fault_text(alloc: Global, fault: &FilterFault) -> Result<String, AllocError> {
    match fault {
        FilterFault::DottedName { path } => format!(in alloc; "dotted name {}", path.as_str()),
        FilterFault::Value(fault) => value_fault_text(alloc, fault),
        FilterFault::NoMemory => String::from_str(alloc, "no memory"),
    }
}

pub(crate) fn update_fault_text(alloc: Global, fault: &UpdateFault) -> Result<String, AllocError> {
    match fault {
        UpdateFault::UnknownOperator { name } => {
            format!(in alloc; "unknown operator {}", name.as_str())
        }
        UpdateFault::Conflict { path } => format!(in alloc; "conflict {}", path.as_str()),
        UpdateFault::IdPath => String::from_str(alloc, "id path"),
        UpdateFault::BadOperand { path } => format!(in alloc; "bad operand {}", path.as_str()),
        UpdateFault::Value(fault) => value_fault_text(alloc, fault),
        UpdateFault::NoMemory => String::from_str(alloc, "no memory"),
    }
}

pub(crate) fn change_fault_text(alloc: Global, fault: &ChangeFault) -> Result<String, AllocError> {
    match fault {
        ChangeFault::NotNumber { path } => format!(in alloc; "not number {}", path.as_str()),
        ChangeFault::OutOfRange { path } => format!(in alloc; "out of range {}", path.as_str()),
        ChangeFault::NotArray { path } => format!(in alloc; "not array {}", path.as_str()),
        ChangeFault::ThroughScalar { path } => {
            format!(in alloc; "through scalar {}", path.as_str())
        }
        ChangeFault::TooLarge => String::from_str(alloc, "too large"),
        ChangeFault::TooDeep => String::from_str(alloc, "too deep"),
        ChangeFault::NoMemory => String::from_str(alloc, "no memory"),
    }
}
