//! Laws of the collection, each a contract of a function that does nothing.

ghost use Rattle.resh_bag.specs.Findings.{DoingsFind};
ghost use Rattle.resh_bag.specs.Laws.{KeepsAll, NoClashInPlace, OpensPlaced, OpensWhole, PartsRise, PutsOne, RemovesOne, SameByPlace};
ghost use Rattle.resh_bag.specs.PartLaws.{AnsweredByTargets, ClashesByRecipient, LeavesOtherParts, MovesByHalves, PartsMerge, ReadsByShard};
ghost use Rattle.resh_bag.specs.WholeLaws.{StaysWhole, UpdateKeepsId};

/// A bag is what stands at its places, and puts and removals act place by place.
pub fn bag_laws()
    ensures puts { PutsOne }
    ensures removes { RemovesOne }
    ensures same { SameByPlace }
{}

/// A bag opens with the documents of a list, each under its owner, and holds no other.
pub fn opening_laws()
    ensures placed { OpensPlaced }
    ensures whole { OpensWhole }
{}

/// The parts of a bag, one after another, are the bag's documents in another order, so that each stands in exactly
/// one part.
pub fn placement_keeps_all()
    ensures { KeepsAll }
{}

/// Where no clash stands, no `_id` stands twice on a shard; the map that placed the bag has no clash.
pub fn parts_rise()
    ensures own_map { NoClashInPlace }
    ensures rise { PartsRise }
{}

/// What a command has found where it does more than say a reply: an insert a free place, an update and a delete the
/// document that their filter names, and an update's result a place that is its own or free.
pub fn doings_find()
    ensures { DoingsFind }
{}

/// A bag is read by shard; what is done on one shard leaves the others' parts; the two halves of a move are the move.
pub fn bags_by_shard()
    ensures reads { ReadsByShard }
    ensures others { LeavesOtherParts }
    ensures halves { MovesByHalves }
{}

/// A command does what it does by what its targets hold: the owner of its key, or shard 0 or all, and the owner of an
/// update's result.
pub fn commands_by_targets()
    ensures { AnsweredByTargets }
{}

/// The shards' own finds and counts merge to those of the bag.
pub fn parts_merge()
    ensures { PartsMerge }
{}

/// A clash is told by the part of its recipient, and the first one by the first recipient that has one.
pub fn clashes_by_recipient()
    ensures { ClashesByRecipient }
{}

/// Each held document keeps its `_id` and its rising names, and an update its `_id`.
pub fn documents_stay_whole()
    ensures whole { StaysWhole }
    ensures ids { UpdateKeepsId }
{}
