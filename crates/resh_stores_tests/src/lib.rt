//! What documents, logs, versions, pools and lanes do, by example.
#![tactic(auto)]

#[cfg(test)]
mod examples;
#[cfg(test)]
mod feed;
#[cfg(test)]
mod lane;
#[cfg(test)]
mod oplog;
#[cfg(test)]
mod rules;
#[cfg(test)]
mod stamp;
#[cfg(test)]
mod stash;
#[cfg(test)]
mod versions;
