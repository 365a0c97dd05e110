//! The versions of one document.

ghost use Rattle.std.specs.Prelude.{◌≡◌, ◌≤◌, [], ◌∷◌, ◌++◌, drop, length, IfOk, OnOk, OnErr};
ghost use Rattle.std.specs.Option.{option_copied};
ghost use Rattle.resh_versions.specs.Chains.{chain_at, chain_read, has_versions, newest, pruned_chain, without_newest};

use crate::version::Version;
use resh_value::{Document, NoMemory};
use std::alloc::Global;
use std::marker::Model;

/// A document's versions, the newest last, which contracts see as their list.
#[derive(Debug, Drop)]
pub(crate) struct Chain {
    versions: Vec<Version>,
}

impl Model for Chain {
    ghost use Rattle.std.specs.Coded.{coded_list};
    ghost use Rattle.resh_versions.specs.contracts.version.Version as version;
    ghost use Rattle.resh_versions.specs.Chains.{Chain};

    ghost Value = { Chain };

    ghost coded = { coded_list version.the_row.coded };

    ghost view = { λ c. c.versions.items };
}

impl Chain {
    /// A chain of one version.
    pub(crate) fn of(alloc: Global, version: Version) -> Result<Chain, NoMemory>
        ensures { IfOk result (λ c. c ≡ version ∷ []) }
    {
        let mut versions = Vec::new(alloc);
        versions.push(version)?;
        Ok(Chain { versions })
    }

    pub(crate) fn has_versions(&self) -> bool
        ensures { result ≡ has_versions self.now }
    {
        !self.versions.is_empty()
    }

    /// Puts a version behind the others. Want of memory leaves all as it was.
    pub(crate) fn push(&mut self, version: Version) -> Result<(), NoMemory>
        ensures ok { OnOk result (self.new ≡ self.old ++ version ∷ []) }
        ensures unchanged { OnErr result (self.new ≡ self.old) }
    {
        self.versions.push(version)?;
        Ok(())
    }

    /// Takes the last version back.
    pub(crate) fn pop(&mut self)
        ensures { self.new ≡ without_newest self.old }
    {
        self.versions.pop();
    }

    /// What the last version has.
    pub(crate) fn newest(&self) -> Option<&Document>
        ensures { option_copied result ≡ newest self.now }
    {
        match self.versions.as_slice() {
            [.., last] => last.document.as_ref(),
            [] => None,
        }
    }

    /// What stood at a time.
    pub(crate) fn at(&self, time: u64) -> Option<&Document>
        ensures { option_copied result ≡ chain_at time self.now }
    {
        read_at(time, self.versions.as_slice())
    }

    /// What stood at a time, or stands now where none is given.
    pub(crate) fn read(&self, time: Option<u64>) -> Option<&Document>
        ensures { option_copied result ≡ chain_read time self.now }
    {
        match time {
            Some(time) => self.at(time),
            None => self.newest(),
        }
    }

    /// Drops what no reading from a time on can give.
    pub(crate) fn prune(&mut self, time: u64)
        ensures { self.new ≡ pruned_chain time self.old }
    {
        let useless = useless_at(time, self.versions.as_slice());
        self.versions.drain(..useless);
    }
}

/// What versions have at a time.
fn read_at(time: u64, versions: &[Version]) -> Option<&Document>
    ensures { option_copied result ≡ chain_at time versions.now }
{
    let mut rest = versions;
    while let [before @ .., last] = rest {
        if last.time <= time {
            return last.document.as_ref();
        }
        rest = before;
    }
    None
}

/// How many versions, from the oldest on, no reading from a time on can give.
fn useless_at(time: u64, versions: &[Version]) -> usize
    ensures pruned { pruned_chain time versions.now ≡ drop result versions.now }
    ensures within { result ≤ length versions.now }
{
    let mut rest = versions;
    while let [before @ .., version] = rest {
        if version.time <= time {
            return match version.document {
                Some(_) => before.len(),
                None => rest.len(),
            };
        }
        rest = before;
    }
    0
}
