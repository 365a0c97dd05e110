//! What sources, sinks and values are, by example.
#![tactic(auto)]

#[cfg(test)]
mod io;
#[cfg(test)]
mod order;
#[cfg(test)]
mod rows;
#[cfg(test)]
mod values;
