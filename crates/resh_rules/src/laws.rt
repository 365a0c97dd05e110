//! Laws of the rules, each a contract of a function that does nothing.

ghost use Rattle.resh_rules.specs.Giving.{FitsByTest, GivesByRule};
ghost use Rattle.resh_rules.specs.Interleaving.{Interleaves};
ghost use Rattle.resh_rules.specs.Laws.{DeleteEmpties, EmptyIsSound, InsertSets, SoundHeldStands, UpdateChanges};

/// Whatever is held of an `_id` stands for slots, and an insert sets the slot of its donor, an update changes it where
/// it is filled, a delete empties it, and no other slot changes. In whatever order the entries of several donors come,
/// the slot of each is what its own entries make of it. A pool that is given an entry that fits has these effects.
pub fn rule_laws()
    ensures empty { EmptyIsSound }
    ensures stands { SoundHeldStands }
    ensures inserts { InsertSets }
    ensures updates { UpdateChanges }
    ensures deletes { DeleteEmpties }
    ensures interleaves { Interleaves }
    ensures fits { FitsByTest }
    ensures gives { GivesByRule }
{}
