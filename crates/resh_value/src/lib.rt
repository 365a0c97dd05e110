//! Values, documents, their order and their text.
#![tactic(auto)]

mod change;
mod copy;
mod depth;
mod fault;
mod fields;
mod from_json;
mod hash;
mod identity;
mod laws;
mod limits;
mod memory;
mod order;
mod pairs;
mod paths;
mod places;
mod sequence;
mod tags;
mod text;
mod value;
mod walk_fault;
mod words;

pub use change::Change;
pub use copy::Copied;
pub use fault::{ValueFault, ValueFaultKind};
pub use fields::Fields;
pub use laws::{field_laws, whole_laws};
pub use limits::{DOLLAR, DOT, END_OF_PLACES, TEXT_LIMIT, limit_laws};
pub use memory::NoMemory;
pub use order::compare;
pub use paths::{path_to_name, path_to_place};
pub use sequence::Sequence;
pub use text::append_quoted;
pub use value::{Document, Documents, Items, Names, ShardId, Value};
pub use walk_fault::{WalkFault, no_path};
pub use words::Words;
