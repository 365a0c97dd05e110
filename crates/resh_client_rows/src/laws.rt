//! Laws of a client's row, a contract of a function that does nothing.

ghost use Rattle.resh_client_rows.specs.Laws.{ClientRowsKeep};

use resh_write_rows::write_row_laws;

/// A client that asks its next command is answered what the order answers, and the invariant is kept with its turn; so
/// it is where the command is refused for want of memory.
pub fn client_row_laws()
    ensures { ClientRowsKeep }
{
    write_row_laws();
}
