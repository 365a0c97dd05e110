ghost use Rattle.std.specs.Prelude.{◌≡◌, ◌+◌, ◌<◌, ◌≤◌, IsTrue, is_some, length, codes, false, None, Some, IfOk, OnOk, OnErr};
ghost use Rattle.std.specs.Option.{option_map};
ghost use Rattle.resh_value.specs.Change.{is_named};
ghost use Rattle.resh_oplog.specs.declared.entry.What.TheVariants.{Insert, Update, Delete};
ghost use Rattle.resh_rules.specs.Finding.{found};
ghost use Rattle.resh_rules.specs.Fits.{Fits};
ghost use Rattle.resh_rules.specs.Held.{with_output, with_waiting, waits};
ghost use Rattle.resh_rules.specs.Pools.{ActsOn, SoundAfter, given, held_of, rule_in, slot_of};
ghost use Rattle.resh_rules.specs.Rules.{donor_by, first_waiting, output_changed, refilled, waiting_changed};
ghost use Rattle.resh_rules.specs.Slots.{IsSound};

use crate::rule::{Found, Rule};
use crate::shelf::{alter, alter_at, first_holding, put, put_at, replace, take, take_at};
use resh_chunks::ChunkMap;
use resh_stash::Stash;
use resh_value::{Change, Document, NoMemory, ShardId, Value};
use std::marker::Model;

/// What one lane of a recipient holds: the output, and for each donor what waits for its `_id` to become free.
#[derive(Debug, Drop)]
pub struct Pool {
    pub(crate) chunks: ChunkMap,
    pub(crate) output: Stash,
    pub(crate) stashes: Vec<Stash>,
}

impl Model for Pool {
    ghost use Rattle.resh_rules.specs.Pools.{IsKept, PoolOf, Roomy, pool_code, pool_of, roomy_code, roomy_of};

    ghost Value = { Roomy PoolOf };

    ghost coded = { roomy_code pool_code };

    ghost view = { λ p. roomy_of p.chunks p.output p.stashes.items };

    ghost invariant = { λ p. IsKept (pool_of p.chunks p.output p.stashes.items) };
}

impl Pool {
    /// Puts a donor's inserted document: into its stash where the `_id` waits there or another donor's document is in
    /// the output, and else into the output. It needs no memory.
    pub fn insert(&mut self, donor: ShardId, id: Value, document: Document) -> Rule
        requires fits { Fits self.old.state donor.0 id (Insert document) }
        requires reserved { 0 < self.old.spare }
        ensures rule { result ≡ rule_in donor.0 id (Insert document) self.old.state }
        ensures state { self.new.state ≡ given donor.0 id (Insert document) self.old.state }
        ensures spare { self.old.spare ≤ self.new.spare + 1 }
    {
        match self.found(donor, &id) {
            Found::Waiting => {
                self.put_waiting(donor, id, document);
                Rule::met(1)
            }
            Found::Nothing => {
                self.put_output(id, document);
                Rule::met(2)
            }
            Found::Own => {
                self.put_output(id, document);
                Rule::met(3)
            }
            Found::Others => {
                self.put_waiting(donor, id, document);
                Rule::met(4)
            }
        }
    }

    /// Changes a donor's document of an `_id`, where it is. Want of memory leaves all as it was; it can't come where
    /// the donor has no such document.
    pub fn update(&mut self, donor: ShardId, id: &Value, change: &Change) -> Result<Rule, NoMemory>
        requires fits { Fits self.old.state donor.0 id.now (Update id.now change.now) }
        ensures rule { IfOk result (λ rule. rule ≡ rule_in donor.0 id.now (Update id.now change.now) self.old.state) }
        ensures state { OnOk result (self.new.state ≡ given donor.0 id.now (Update id.now change.now) self.old.state) }
        ensures unchanged { OnErr result (self.new ≡ self.old) }
        ensures wanted { OnErr result (IsTrue (is_some (slot_of donor.0 id.now self.old.state))) }
        ensures spare { self.new.spare ≡ self.old.spare }
    {
        match self.found(donor, id) {
            Found::Waiting => {
                self.alter_waiting(donor, id, change)?;
                Ok(Rule::met(1))
            }
            Found::Nothing => Ok(Rule::met(2)),
            Found::Others => Ok(Rule::met(3)),
            Found::Own => {
                self.alter_output(id, change)?;
                Ok(Rule::met(4))
            }
        }
    }

    /// Deletes a donor's document of an `_id`, where it is. One that waits comes into the output in its place, that of
    /// the least donor.
    pub fn delete(&mut self, donor: ShardId, id: &Value) -> Rule
        requires { donor.0 < length self.old.state.stashes }
        ensures rule { result ≡ rule_in donor.0 id.now (Delete id.now) self.old.state }
        ensures state { self.new.state ≡ given donor.0 id.now (Delete id.now) self.old.state }
        ensures spare { self.old.spare ≤ self.new.spare }
    {
        match self.found(donor, id) {
            Found::Waiting => {
                self.take_waiting(donor, id);
                Rule::met(1)
            }
            Found::Nothing => Rule::met(2),
            Found::Others => Rule::met(3),
            Found::Own => Rule {
                number: 4,
                took: self.refill(id),
            },
        }
    }

    fn found(&self, donor: ShardId, id: &Value) -> Found
        requires { donor.0 < length self.now.state.stashes }
        ensures found { result ≡ found self.now.state.chunks donor.0 (held_of self.now.state id.now) }
        ensures sound { IsSound self.now.state.chunks id.now (held_of self.now.state id.now) }
    {
        let chunks = &self.chunks;
        if self.waits(donor, id) {
            return Found::Waiting;
        }
        match self.output.get(id) {
            None => Found::Nothing,
            Some(document) => {
                if chunks.owner_of(document).0 == donor.0 {
                    Found::Own
                } else {
                    Found::Others
                }
            }
        }
    }

    fn waits(&self, donor: ShardId, id: &Value) -> bool
        requires { donor.0 < length self.now.state.stashes }
        ensures { result ≡ is_some (waits (held_of self.now.state id.now) donor.0) }
    {
        self.stashes[donor.0 as usize].get(id).is_some()
    }

    fn put_output(&mut self, id: Value, document: Document)
        requires room { 0 < self.old.spare }
        requires sound { SoundAfter id (λ held. with_output held (Some document)) self.old.state }
        ensures acts { ActsOn id (λ held. with_output held (Some document)) self.old.state self.new.state }
        ensures spare { self.old.spare ≤ self.new.spare + 1 }
    {
        put(&mut self.output, id, document);
    }

    fn alter_output(&mut self, id: &Value, change: &Change) -> Result<(), NoMemory>
        requires others { is_named change.now.assign change.now.unset (codes "_id") ≡ false }
        requires sound { SoundAfter id.now (output_changed change.now) self.old.state }
        ensures acts { OnOk result (ActsOn id.now (output_changed change.now) self.old.state self.new.state) }
        ensures unchanged { OnErr result (self.new ≡ self.old) }
        ensures spare { self.new.spare ≡ self.old.spare }
    {
        alter(&mut self.output, id, change)?;
        Ok(())
    }

    fn alter_waiting(&mut self, donor: ShardId, id: &Value, change: &Change) -> Result<(), NoMemory>
        requires donor { donor.0 < length self.old.state.stashes }
        requires others { is_named change.now.assign change.now.unset (codes "_id") ≡ false }
        requires sound { SoundAfter id.now (waiting_changed donor.0 change.now) self.old.state }
        ensures acts { OnOk result (ActsOn id.now (waiting_changed donor.0 change.now) self.old.state self.new.state) }
        ensures unchanged { OnErr result (self.new ≡ self.old) }
        ensures spare { self.new.spare ≡ self.old.spare }
    {
        alter_at(&mut self.stashes, donor.0 as usize, id, change)?;
        Ok(())
    }

    fn put_waiting(&mut self, donor: ShardId, id: Value, document: Document)
        requires donor { donor.0 < length self.old.state.stashes }
        requires room { 0 < self.old.spare }
        requires sound { SoundAfter id (λ held. with_waiting held donor.0 (Some document)) self.old.state }
        ensures acts { ActsOn id (λ held. with_waiting held donor.0 (Some document)) self.old.state self.new.state }
        ensures spare { self.old.spare ≤ self.new.spare + 1 }
    {
        put_at(&mut self.stashes, donor.0 as usize, id, document);
    }

    /// Takes the document of an `_id` out of the output, and puts the one that waits at the least donor in its place.
    fn refill(&mut self, id: &Value) -> Option<ShardId>
        requires sound { SoundAfter id.now (λ held. refilled held (first_waiting held)) self.old.state }
        requires held { IsTrue (is_some (held_of self.old.state id.now).output) }
        ensures took { result ≡ option_map donor_by (first_waiting (held_of self.old.state id.now)) }
        ensures acts { ActsOn id.now (λ held. refilled held (first_waiting held)) self.old.state self.new.state }
        ensures spare { self.old.spare ≤ self.new.spare }
    {
        match first_holding(self.stashes.as_slice(), id) {
            None => {
                take(&mut self.output, id);
                None
            }
            Some(place) => {
                let (id, document) = take_at(&mut self.stashes, place, id);
                replace(&mut self.output, id, document);
                Some(ShardId(place as u32))
            }
        }
    }

    fn take_waiting(&mut self, donor: ShardId, id: &Value)
        requires donor { donor.0 < length self.old.state.stashes }
        requires waits { IsTrue (is_some (waits (held_of self.old.state id.now) donor.0)) }
        requires sound { SoundAfter id.now (λ held. with_waiting held donor.0 None) self.old.state }
        ensures acts { ActsOn id.now (λ held. with_waiting held donor.0 None) self.old.state self.new.state }
        ensures spare { self.old.spare ≤ self.new.spare }
    {
        take_at(&mut self.stashes, donor.0 as usize, id);
    }
}
