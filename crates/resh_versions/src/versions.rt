ghost use Rattle.std.specs.Prelude.{◌≡◌, ◌≤◌, ℕ, None, Some, take, IfOk, IfSome, IsOk, OnOk, OnErr, true};
ghost use Rattle.std.specs.FinMap.{empty, get};
ghost use Rattle.std.specs.List.{All};
ghost use Rattle.std.specs.Option.{is_some, option_copied};
ghost use Rattle.resh_value.specs.Lookup.{id_of};
ghost use Rattle.resh_value.specs.Whole.{is_whole};
ghost use Rattle.resh_versions.specs.Chains.{IsStored, newest, version};
ghost use Rattle.resh_versions.specs.Standing.{IsChainOf, IsFiled, IsKept, StandsUnder, at, chain_in, chains_above, filed, now};
ghost use Rattle.resh_versions.specs.Standing.{popped, pruned, pruned_chains, pushed, standing_after, standing_now};
ghost use Rattle.resh_versions.specs.Standing.{stored_from, with_first, with_removal, with_version, without_last};

use crate::chain::Chain;
use crate::version::Version;
use crate::walk::Walk;
use resh_value::{Document, Documents, NoMemory, Sequence, Value};
use std::alloc::Global;
use std::collections::BTreeMap;
use std::collections::btree_map::Range;
use std::marker::Model;
use std::ops::Bound;

/// What documents stood under each `_id` from which time on.
#[derive(Debug, Drop)]
pub struct Versions {
    chains: BTreeMap<Value, Chain>,
    floor: u64,
    alloc: Global,
}

impl Model for Versions {
    ghost use Rattle.resh_versions.specs.Standing.{IsKept, VersionsOf, filed, versions_code};

    ghost Value = { VersionsOf };

    ghost coded = { versions_code };

    ghost view = { λ v. record { chains = filed v.chains; floor = v.floor } };

    ghost invariant = { λ v. IsKept v.chains };
}

impl Versions {
    /// Nothing stands, and readings are answered from time 0 on.
    pub fn new(alloc: Global) -> Versions
        ensures chains { result.chains ≡ empty }
        ensures floor { result.floor ≡ 0 }
    {
        Versions {
            chains: BTreeMap::new(alloc),
            floor: 0,
            alloc,
        }
    }

    /// Only these documents stand, each under its `_id` from a time on, of several of one `_id` the last one. Readings
    /// are answered from that time on.
    pub fn of_documents(
        alloc: Global,
        time: u64,
        documents: Documents,
    ) -> Result<Versions, NoMemory>
        requires { All IsStored documents }
        ensures { IfOk result (λ versions. versions ≡ stored_from time documents) }
    {
        let mut chains = BTreeMap::new(alloc);
        for document in documents.into_vec() {
            store(&mut chains, alloc, time, document)?;
        }
        Ok(Versions {
            chains,
            floor: time,
            alloc,
        })
    }

    /// Puts a document under its `_id` from a time on. Want of memory leaves all as it was.
    pub fn put(&mut self, time: u64, document: Document) -> Result<(), NoMemory>
        requires { is_whole document ≡ true }
        ensures ok { OnOk result (self.new ≡ with_version self.old (id_of document) (version time (Some document))) }
        ensures undone { OnOk result (without_last self.new (id_of document) ≡ self.old) }
        ensures unchanged { OnErr result (self.new ≡ self.old) }
    {
        let id = document.copy_id(self.alloc)?;
        let version = Version {
            time,
            document: Some(document),
        };
        push_version(&mut self.chains, self.alloc, id, version)?;
        Ok(())
    }

    /// Nothing stands under an `_id` from a time on. False exactly where nothing stood there; then all is as it was,
    /// and no memory is asked for. Want of memory leaves all as it was.
    pub fn remove(&mut self, time: u64, id: &Value) -> Result<bool, NoMemory>
        ensures stood { IfOk result (λ stood. stood ≡ is_some (now self.old id.now)) }
        ensures ok { OnOk result (self.new ≡ with_removal self.old time id.now) }
        ensures nothing { now self.old id.now ≡ None → IsOk result }
        ensures unchanged { OnErr result (self.new ≡ self.old) }
    {
        if self.now(id).is_none() {
            return Ok(false);
        }
        let version = Version {
            time,
            document: None,
        };
        push_removal(&mut self.chains, id, version)?;
        Ok(true)
    }

    /// Takes the last put of an `_id` back.
    pub fn undo_put(&mut self, id: &Value)
        ensures { self.new ≡ without_last self.old id.now }
    {
        pop_version(&mut self.chains, id);
    }

    /// What stands now under an `_id`; `None` exactly where nothing does.
    pub fn now(&self, id: &Value) -> Option<&Document>
        ensures now { option_copied result ≡ now self.now id.now }
        ensures stands { IfSome result (λ document. StandsUnder id.now document.now) }
    {
        match chain_of(&self.chains, id) {
            Some(chain) => chain.newest(),
            None => None,
        }
    }

    /// What stood at a time under an `_id`; `None` exactly where nothing did.
    pub fn at(&self, time: u64, id: &Value) -> Option<&Document>
        requires { self.now.floor ≤ time }
        ensures at { option_copied result ≡ at self.now time id.now }
        ensures stands { IfSome result (λ document. StandsUnder id.now document.now) }
    {
        match chain_of(&self.chains, id) {
            Some(chain) => chain.at(time),
            None => None,
        }
    }

    /// The documents at a time, by `_id`, above an `_id` where one is given.
    pub fn walk_at<'a>(&'a self, time: u64, after: Option<&Value>) -> Walk<'a>
        requires { self.now.floor ≤ time }
        ensures listed { result ≡ standing_after self.now time (option_copied after.entry) }
        ensures whole { All IsStored result }
    {
        Walk {
            chains: chains_above(&self.chains, after),
            time: Some(time),
        }
    }

    /// The documents now, by `_id`, above an `_id` where one is given.
    pub fn walk_now<'a>(&'a self, after: Option<&Value>) -> Walk<'a>
        ensures listed { result ≡ standing_now self.now (option_copied after.entry) }
        ensures whole { All IsStored result }
    {
        Walk {
            chains: chains_above(&self.chains, after),
            time: None,
        }
    }

    /// Copies of the first documents at a time, by `_id`, above an `_id` where one is given.
    pub fn scan_at(
        &self,
        time: u64,
        after: Option<&Value>,
        most: u32,
    ) -> Result<Documents, NoMemory>
        requires { self.now.floor ≤ time }
        ensures listed { IfOk result (λ ds. ds ≡ take most (standing_after self.now time (option_copied after.entry))) }
        ensures whole { IfOk result (λ ds. All IsStored ds) }
    {
        let mut documents = Vec::new(self.alloc);
        for document in self.walk_at(time, after).take(most as usize) {
            documents.push(document.copy()?)?;
        }
        Ok(Sequence::from_vec(documents))
    }

    /// The time from which on readings are answered. Each chain has versions, and their documents its `_id`.
    pub fn floor(&self) -> u64
        ensures floor { result ≡ self.now.floor }
        ensures filed { IsFiled self.now.chains }
    {
        self.floor
    }

    /// Drops what no reading from a time on can give. Readings are answered from then on, or as before where that is
    /// later.
    pub fn prune(&mut self, time: u64)
        ensures pruned { self.new ≡ pruned time self.old }
        ensures readings { (t : ℕ) (id : Value) → self.new.floor ≤ t → at self.new t id ≡ at self.old t id }
        ensures now { (id : Value) → now self.new id ≡ now self.old id }
    {
        self.floor = self.floor.max(time);
        prune_chains(&mut self.chains, self.floor);
    }
}

/// The versions of an `_id`; `None` exactly where it has none.
fn chain_of<'a>(chains: &'a BTreeMap<Value, Chain>, id: &Value) -> Option<&'a Chain>
    requires { IsKept chains.now }
    ensures found { option_copied result ≡ get (filed chains.now) id.now }
    ensures named { IfSome result (λ chain. IsChainOf id.now chain.now) }
{
    chains.get(id)
}

/// Puts a version behind the others of its `_id`.
fn push_version(
    chains: &mut BTreeMap<Value, Chain>,
    alloc: Global,
    id: Value,
    version: Version,
) -> Result<(), NoMemory>
    requires kept { IsKept chains.old }
    requires stands { IfSome version.document (StandsUnder id) }
    ensures ok { OnOk result (filed chains.new ≡ pushed (filed chains.old) id version) }
    ensures unchanged { OnErr result (filed chains.new ≡ filed chains.old) }
    ensures kept { IsKept chains.new }
{
    if let Some(chain) = chains.get_mut(&id) {
        chain.push(version)?;
        return Ok(());
    }
    chains.insert(id, Chain::of(alloc, version)?)?;
    Ok(())
}

/// Puts a version that is nothing behind those of an `_id` under which a document stands.
fn push_removal(
    chains: &mut BTreeMap<Value, Chain>,
    id: &Value,
    version: Version,
) -> Result<(), NoMemory>
    requires kept { IsKept chains.old }
    requires stands { is_some (newest (chain_in (filed chains.old) id.now)) ≡ true }
    requires nothing { version.document ≡ None }
    ensures ok { OnOk result (filed chains.new ≡ pushed (filed chains.old) id.now version) }
    ensures unchanged { OnErr result (filed chains.new ≡ filed chains.old) }
    ensures kept { IsKept chains.new }
{
    if let Some(chain) = chains.get_mut(id) {
        chain.push(version)?;
        return Ok(());
    }
    Ok(())
}

/// Takes the last version of an `_id` out, and its chain where none is left.
fn pop_version(chains: &mut BTreeMap<Value, Chain>, id: &Value)
    requires { IsKept chains.old }
    ensures popped { filed chains.new ≡ popped (filed chains.old) id.now }
    ensures kept { IsKept chains.new }
{
    if let Some(chain) = chains.get_mut(id) {
        chain.pop();
        if !chain.has_versions() {
            chains.remove(id);
        }
    }
}

/// Prunes every chain, and takes those without versions out.
fn prune_chains(chains: &mut BTreeMap<Value, Chain>, time: u64)
    requires { IsKept chains.old }
    ensures pruned { filed chains.new ≡ pruned_chains time (filed chains.old) }
    ensures kept { IsKept chains.new }
{
    chains.retain(|_, chain| {
        chain.prune(time);
        chain.has_versions()
    });
}

/// Puts a document alone under its `_id`, from a time on.
fn store(
    chains: &mut BTreeMap<Value, Chain>,
    alloc: Global,
    time: u64,
    document: Document,
) -> Result<(), NoMemory>
    requires kept { IsKept chains.old }
    requires whole { IsStored document }
    ensures stored { OnOk result (filed chains.new ≡ with_first time (filed chains.old) document) }
    ensures kept { OnOk result (IsKept chains.new) }
{
    let id = document.copy_id(alloc)?;
    let version = Version {
        time,
        document: Some(document),
    };
    chains.insert(id, Chain::of(alloc, version)?)?;
    Ok(())
}

/// The chains whose `_id`s are above one, if one is given.
fn chains_above<'a>(
    chains: &'a BTreeMap<Value, Chain>,
    after: Option<&Value>,
) -> Range<'a, Value, Chain>
    ensures { result ≡ chains_above (option_copied after.entry) chains.now.entries }
{
    match after {
        Some(id) => chains.range((Bound::Excluded(id), Bound::Unbounded)),
        None => chains.range(..),
    }
}
