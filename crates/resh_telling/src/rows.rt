//! The cells of one recipient.

ghost use Rattle.std.specs.Prelude.{◌≡◌};
ghost use Rattle.resh_telling.specs.Rows.{row_of};

use resh_cells::Cells;

/// The cells of a recipient, none where it isn't there.
#[tactic(auto, using(crate::proofs::Changing::or_item, crate::proofs::Changing::or_default))]
pub(crate) fn row_of<T>(rows: &Cells<Cells<T>>, recipient: u32) -> &[T]
    ensures { result.now ≡ row_of rows.now recipient }
{
    match rows.get(recipient) {
        Some(row) => row.as_slice(),
        None => &[],
    }
}
