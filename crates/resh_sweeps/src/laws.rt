//! The law that rounds end, a contract of a function that does nothing.

ghost use Rattle.resh_sweeps.specs.Laws.{RoundsEnd};

use resh_law::schedule_laws;
use resh_leading::{feeds_are_few, leads_on};
use resh_ready::idle_links_are_ready;

/// A round that is begun while not all is done leaves less to do, whatever luck gives.
pub fn rounds_end()
    ensures { RoundsEnd }
{
    schedule_laws();
    leads_on();
    feeds_are_few();
    idle_links_are_ready();
}
