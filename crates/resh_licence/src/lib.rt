//! A failure has its cause in the events before it, and a plan that gives leave to it.
#![tactic(auto)]

mod laws;

pub use laws::{
    calm_runs_never_fail, failures_are_licensed, failures_have_causes, steps_keep_plans,
};
