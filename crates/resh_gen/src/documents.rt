//! The documents of a generated setup.

ghost use Rattle.std.specs.Prelude.{◌≡◌, ◌<◌, ◌+◌, ◌*◌, pos, IfOk, OnOk};
ghost use Rattle.resh_value.specs.declared.value.Value.TheVariants.{Int};
ghost use Rattle.resh_value.specs.Lookup.{with_field};
ghost use Rattle.resh_gen.specs.Draws.{state_at};
ghost use Rattle.resh_gen.specs.Documents.{document, first_documents};

use crate::draws::Draws;
use resh_value::{Document, Documents, NoMemory, Sequence, Value, Words};
use std::alloc::Global;

/// The first so many documents, whose keys are the next numbers.
pub(crate) fn first_documents(
    alloc: Global,
    draws: &mut Draws,
    count: u32,
) -> Result<Documents, NoMemory>
    ensures documents { IfOk result (λ documents. documents ≡ first_documents draws.old.state count) }
    ensures draws { OnOk result (draws.new.state ≡ state_at draws.old.state (2 * count)) }
{
    let mut documents = Vec::with_capacity(alloc, count as usize)?;
    for index in 0..count {
        let x = draws.below_thousand();
        let y = draws.below_thousand();
        documents.push(document(alloc, index, x, y)?)?;
    }
    Ok(Sequence::from_vec(documents))
}

pub(crate) fn document(alloc: Global, id: u32, x: u32, y: u32) -> Result<Document, NoMemory>
    ensures { IfOk result (λ d. d ≡ document id x y) }
{
    let mut fields = Document::new(alloc);
    put(alloc, &mut fields, "_id", id)?;
    put(alloc, &mut fields, "n", 0)?;
    put(alloc, &mut fields, "x", x)?;
    put(alloc, &mut fields, "y", y)?;
    Ok(fields)
}

/// Puts a number under a name.
fn put(alloc: Global, fields: &mut Document, name: &str, number: u32) -> Result<(), NoMemory>
    ensures { OnOk result (fields.new ≡ with_field fields.old name.now (Int (pos number))) }
{
    fields.put(Words::of(alloc, name)?, Value::Int(number as i64))?;
    Ok(())
}
