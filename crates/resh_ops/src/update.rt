ghost use Rattle.std.specs.Prelude.{◌≡◌, IfOk};
ghost use Rattle.resh_ops.specs.Updates.{IsUpdate};

use crate::operator::Action;
use resh_value::{Copied, NoMemory, Sequence};
use std::alloc::Global;
use std::marker::Model;

/// An update: operators at paths, in the order in which they are taken, which is that of the operators' names and then
/// of the paths. No path begins with `_id`, and none equals, begins or extends another.
#[derive(Debug, Drop)]
pub struct Update {
    actions: Vec<Action>,
}

impl Model for Update {
    ghost use Rattle.std.specs.Prelude.{List};
    ghost use Rattle.std.specs.Coded.{codes};
    ghost use Rattle.resh_value.specs.contracts.value.Value as value;
    ghost use Rattle.resh_ops.specs.declared.operator.Action.{Action};
    ghost use Rattle.resh_ops.specs.Updates.{IsUpdate};

    ghost Value = { List Action };

    ghost coded = { Prim.hlevel (codes, value.the_row.coded) };

    ghost view = { λ u. u.actions.items };

    ghost invariant = { λ u. IsUpdate u.actions.items };
}

impl Update {
    /// An update of these actions, whose paths are paths.
    pub(crate) fn of(actions: Sequence<Action>) -> Update
        requires { IsUpdate actions }
        ensures { result ≡ actions }
    {
        Update {
            actions: actions.into_vec(),
        }
    }

    pub(crate) fn alloc(&self) -> Global {
        *self.actions.allocator()
    }

    /// The operators at their paths, in the order in which they are taken.
    pub fn actions(&self) -> &[Action]
        ensures all { result.now ≡ self.now }
        ensures update { IsUpdate self.now }
    {
        self.actions.as_slice()
    }

    /// An update with the same operators, on its own allocator.
    pub fn copy(&self) -> Result<Update, NoMemory>
        ensures { IfOk result (λ u. u ≡ self.now) }
    {
        let alloc = self.alloc();
        let actions = self.actions.as_slice();
        let mut copies = Vec::with_capacity(alloc, actions.len())?;
        for action in actions {
            copies.push(action.copy(alloc)?)?;
        }
        Ok(Update { actions: copies })
    }
}

impl Copied for Update {
    fn copied(&self, _alloc: Global) -> Result<Update, NoMemory> {
        self.copy()
    }
}
