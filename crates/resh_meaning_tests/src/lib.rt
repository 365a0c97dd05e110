//! What orders of turns come to and what lines of steps show, by example.
#![tactic(auto)]

#[cfg(test)]
mod cases;
#[cfg(test)]
mod orders;
#[cfg(test)]
mod step_lines;
