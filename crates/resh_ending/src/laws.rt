//! Laws of clusters and runs, each a contract of a function that does nothing.

ghost use Rattle.resh_ending.specs.Applies.{AppliesEnd};
ghost use Rattle.resh_ending.specs.Shapes as shapes;

/// No event changes how many positions a lane has, and how many links a recipient.
pub fn shapes_keep()
    ensures opens { shapes.Opens }
    ensures keeps { shapes.Keeps }
    ensures clocks { shapes.ClocksKeep }
{}

/// An apply that goes on leaves less to do: fewer calls of its luck, or fewer pieces, or nothing on a link that failed.
pub fn applies_end()
    ensures { AppliesEnd }
{}
