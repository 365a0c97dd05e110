//! What cluster files are, what the top call says of them, and what generated setups are, by example.
#![tactic(auto)]

#[cfg(test)]
mod file_rows;
#[cfg(test)]
mod files;
#[cfg(test)]
mod generated;
#[cfg(test)]
mod plan_rows;
#[cfg(test)]
mod top;
