//! Update operators: what an update makes of a document, as a change of its top-level fields.
#![tactic(auto)]

mod change;
mod conflicts;
mod difference;
mod doing;
mod faults;
mod kind;
mod laws;
mod operands;
mod operator;
mod path;
mod path_text;
mod read;
mod read_faults;
mod update;

pub use faults::{ChangeFault, UpdateFault, UpdateFaultKind};
pub use laws::{action_laws, empty_change_law, id_laws, number_laws};
pub use operator::{Action, Operator, Side};
pub use path::dotted;
pub use update::Update;
