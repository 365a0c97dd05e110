//! What filters, updates and chunk maps do, by example.
#![tactic(auto)]

#[cfg(test)]
mod answers;
#[cfg(test)]
mod chunk_rows;
#[cfg(test)]
mod chunks;
#[cfg(test)]
mod faults;
#[cfg(test)]
mod rows;
