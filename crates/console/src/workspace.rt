// What loading, sessions and runs work on: the readings, the sessions, and how much memory is lent to each call.
ghost use Rattle.std.specs.Prelude.{◌≤◌};

use crate::session_state::SessionState;
use bounded::BoundedVec;
use provider::Handle;

mod calls;

// How many readings and slots are lent to a call.
#[derive(Clone, Copy)]
pub struct Lent {
    readings: usize,
    slots: usize,
    ghost few_readings: { readings ≤ 512 },
    ghost few_slots: { slots ≤ 4096 },
}

#[derive(Clone, Copy)]
pub struct Workspace {
    readings: [Handle; 512],
    sessions: BoundedVec<SessionState, 16>,
    lent: Lent,
}
