//! The orders in which commands and marks may come, what they make of the collection, and the plain program that
//! serves an order.
#![tactic(auto)]

mod answer;
mod clash;
mod collection;
mod laws;
mod outcome;
mod placement;
mod plain;
mod seat;
mod state;

pub use laws::{
    ends_have_causes, marks_keep_the_documents, orders_are_functions, orders_grow,
    orders_have_one_mark, orders_serve_each_once, orders_stay_whole, replies_leave_the_bag,
    runs_are_lawful, walks_stay_placed,
};
pub use outcome::Replay;
pub use placement::{Run, run_of};
pub use plain::replay;
