//! What messages, machines, links, batches, plans and coordinators do, by example.
#![tactic(auto)]

#[cfg(test)]
mod coord;
#[cfg(test)]
mod donor;
#[cfg(test)]
mod examples;
#[cfg(test)]
mod fetcher;
#[cfg(test)]
mod luck;
#[cfg(test)]
mod progress;
#[cfg(test)]
mod recipient;
#[cfg(test)]
mod split;
