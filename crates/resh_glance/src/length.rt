//! The length of a document's text, against a limit.

ghost use Rattle.std.specs.Prelude.{◌≡◌, nat_lt, length, IfOk};
ghost use Rattle.resh_value.specs.Text.{document_text};

use crate::room::document_room;
use resh_value::{Document, NoMemory};
use std::alloc::Global;

/// Whether the compact JSON text of the document has more than `limit` bytes.
/// It is written, to be measured, only where the room that suffices for it reaches the limit.
pub fn is_longer(alloc: Global, document: &Document, limit: u64) -> Result<bool, NoMemory>
    ensures { IfOk result (λ longer. longer ≡ nat_lt limit (length (document_text document.now))) }
{
    if document_room(document) < limit {
        return Ok(false);
    }
    let text = document.append_text(Vec::new(alloc))?;
    Ok(limit < text.len() as u64)
}
