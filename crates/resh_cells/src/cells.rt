ghost use Rattle.std.specs.Prelude.{◌≡◌, length, slice_get};
ghost use Rattle.std.specs.Option.{option_copied, option_copied_mut};
ghost use Rattle.std.specs.Borrow.{sem};
ghost use Rattle.resh_cells.specs.Lending.{LendsCell};

use std::marker::Model;

/// Cells of one kind, which contracts see as the list of them.
#[derive(Debug, Drop)]
pub struct Cells<T> {
    items: Vec<T>,
}

impl<T> Model for Cells<T> {
    ghost use Rattle.std.specs.Prelude.{List};
    ghost use Rattle.std.specs.Coded.{coded_list};

    ghost Value = { List T };

    ghost coded = { coded_list T.code };

    ghost view = { λ c. c.items.items };
}

impl<T> Cells<T> {
    pub fn of(items: Vec<T>) -> Cells<T>
        ensures { result ≡ items.items }
    {
        Cells { items }
    }

    pub fn as_slice(&self) -> &[T]
        ensures { result.now ≡ self.now }
    {
        self.items.as_slice()
    }

    /// The number of cells.
    pub fn len(&self) -> u64
        ensures { result ≡ length self.now }
    {
        self.items.len() as u64
    }

    /// The cell at a place, from 0; `None` exactly where there is none.
    pub fn get(&self, place: u32) -> Option<&T>
        ensures { option_copied result ≡ slice_get self.now place }
    {
        self.items.get(place as usize)
    }

    /// The cell at a place, from 0, to be changed; `None` exactly where there is none.
    pub fn get_mut(&mut self, place: u32) -> Option<&mut T>
        ensures* lends { sem 𝓛 (LendsCell T.row self.entry place result) }
        ensures value { option_copied_mut result ≡ slice_get self.old place }
    {
        self.items.get_mut(place as usize)
    }
}
