//! What mailboxes, rounds of jobs and turns do, by example.
#![tactic(auto)]

#[cfg(test)]
mod mailbox;
#[cfg(test)]
mod mix;
#[cfg(test)]
mod pair;
#[cfg(test)]
mod round;
#[cfg(test)]
mod turn;
