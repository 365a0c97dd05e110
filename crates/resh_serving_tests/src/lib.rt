//! What a router and shards give together, by example: replies and documents are those of the one collection.
#![tactic(auto)]

#[cfg(test)]
mod calls;
#[cfg(test)]
mod cases;
#[cfg(test)]
mod cluster;
#[cfg(test)]
mod sequences;
