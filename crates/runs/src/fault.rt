// What a run answers.
ghost use Rattle.std.specs.Prelude.{◌≡◌};
ghost use Rattle.runs.specs.Runs.{early_fault};

use acting::SessionRefusal;
use protocol::LISTENER;

// The number by which what precedes the first step is known; it is laid down.
pub(crate) const BEFORE_STEPS: usize = 64;

// How many steps were played, and how many comparisons were done.
#[derive(Clone, Copy, PartialEq, Eq, Debug)]
pub struct Played {
    pub steps: usize,
    pub sames: usize,
}

// Why a run was stopped, in which step, and at which party: before the first step the step is 64, and outside of all scripts the
// party is 0.
#[derive(Clone, Copy)]
pub struct RunFault {
    pub refusal: SessionRefusal,
    pub step: usize,
    pub party: usize,
}

// A refusal outside of all scripts, before the first step.
impl From<SessionRefusal> for RunFault {
    ghost from_gives = { λ refusal fault. fault ≡ early_fault refusal };

    fn from(refusal: SessionRefusal) -> RunFault {
        RunFault {
            refusal,
            step: BEFORE_STEPS,
            party: LISTENER,
        }
    }
}
