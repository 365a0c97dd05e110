//! The law of links that have nothing to do, a contract of a function that does nothing.

ghost use Rattle.resh_ready.specs.Laws.{IdleLinksAreReady};

/// While the coordinator waits for reports and has told all that it has to, a recipient whose links have nothing to do
/// may report.
pub fn idle_links_are_ready()
    ensures { IdleLinksAreReady }
{}
