//! Laws of runs, each a contract of a function that does nothing.

ghost use Rattle.resh_rounds.specs.Rounds.{RoundsFall};
ghost use Rattle.resh_rounds.specs.Serving.{OpensRunning, StaysRunning};
ghost use Rattle.resh_rounds.specs.Supplies.{NoEventAdds, StepsPay};
ghost use Rattle.resh_rounds.specs.Working.{LinkRowsPay};

/// No event adds to the supply; a step that isn't idle takes of it, or makes its event's row and nothing else.
pub fn supplies_fall()
    ensures adds { NoEventAdds }
    ensures pays { StepsPay }
{}

/// Every event keeps a cluster's lengths, how its shards serve by the phase, and that no client knows the new map before
/// it is in force.
pub fn running_stays()
    ensures opens { OpensRunning }
    ensures stays { StaysRunning }
{}

/// A round that is begun while not all is done takes of what is left, or leaves the coordinator as it is: it has told all
/// and waits for reports.
pub fn rounds_fall()
    ensures { RoundsFall }
{}

/// Each row of a link takes of the link's work, but for a fetch of nothing by a link that is near.
pub fn link_rows_pay()
    ensures { LinkRowsPay }
{}
