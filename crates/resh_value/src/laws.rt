//! Laws of documents, each a contract of a function that does nothing.

ghost use Rattle.resh_value.specs.Laws.{PutsOne, RemovesOne, SameByName, ChangesByName};
ghost use Rattle.resh_value.specs.Whole.{RisesByTest, WholeByTest, StaysWhole, WholeWithId, LeavesUnnamed};
ghost use Rattle.resh_value.specs.declared.value.Value.{Value};

/// A document is what stands under its names, and puts, removals and changes act name by name.
pub fn field_laws()
    ensures puts { PutsOne Value }
    ensures removes { RemovesOne Value }
    ensures same { SameByName Value }
    ensures changes { ChangesByName Value }
{}

/// Which documents can be stored, as a test and as a relation, and what leaves them so.
pub fn whole_laws()
    ensures rising { RisesByTest Value }
    ensures whole { WholeByTest }
    ensures stays { StaysWhole }
    ensures with_id { WholeWithId }
    ensures unnamed { LeavesUnnamed Value }
{}
