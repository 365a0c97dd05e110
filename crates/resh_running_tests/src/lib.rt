//! Whole runs on one thread, by example.
#![tactic(auto)]

#[cfg(test)]
mod examples;
#[cfg(test)]
mod runs;
