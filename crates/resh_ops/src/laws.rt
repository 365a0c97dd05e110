//! What holds of every update, each law a contract of a function that does nothing.

ghost use Rattle.std.specs.Prelude.{◌+ℤ◌, ◌*ℤ◌};
ghost use Rattle.resh_ops.specs.Laws.{ActionsKeepId, EmptyChangeKeeps, KeepsId, KeepsUnrelated, SetReadsBack, StaysInWidth};
ghost use Rattle.resh_ops.specs.declared.operator.Operator.TheVariants.{Inc, Mul};

/// A value that is set stands at its path, and an action leaves what each path reaches that neither equals, begins nor
/// extends one of its own.
pub fn action_laws()
    ensures set { SetReadsBack }
    ensures unrelated { KeepsUnrelated }
{}

/// No update changes the `_id`.
pub fn id_laws()
    ensures updates { KeepsId }
    ensures actions { ActionsKeepId }
{}

/// A change that names no field leads to the same document.
pub fn empty_change_law()
    ensures { EmptyChangeKeeps }
{}

/// Sums and products are written where 64 bits hold them, and else refused as out of range.
pub fn number_laws()
    ensures sums { StaysInWidth Inc ◌+ℤ◌ }
    ensures products { StaysInWidth Mul ◌*ℤ◌ }
{}
