//! The events of a cluster: what is made of its cells, one event after another. Definitions alone, in `specs/`.
#![tactic(auto)]
