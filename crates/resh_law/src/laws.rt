//! The law over every schedule, a contract of a function that does nothing.

ghost use Rattle.resh_law.specs.Laws.{EveryScheduleKeeps, OrdersDecide, SchedulesEnd};

use resh_client_rows::client_row_laws;
use resh_control_rows::control_row_laws;
use resh_invariant::{frame_laws, opening_laws};
use resh_lane_rows::lane_row_laws;
use resh_link_rows::link_row_laws;
use resh_mark_rows::mark_row_laws;
use resh_tell_rows::tell_row_laws;

/// Whatever events are made one after another from a setup's opening state, each where its row may be made, the
/// invariant is kept and the order of turns may come turn by turn. Where the coordinator is done and no command is left,
/// the order is lawful, its end is the end, and each client was answered and each shard holds what the order gives; so
/// two schedules that end with one order have answered the same, and hold the same.
pub fn schedule_laws()
    ensures keeps { EveryScheduleKeeps }
    ensures ends { SchedulesEnd }
    ensures decide { OrdersDecide }
{
    opening_laws();
    frame_laws();
    link_row_laws();
    lane_row_laws();
    control_row_laws();
    mark_row_laws();
    tell_row_laws();
    client_row_laws();
}
