// Why a call on a protocol is refused.
ghost use Rattle.std.specs.Prelude.{◌≡◌};
ghost use Rattle.protocol.specs.Refusals.{number_of, refused_as, value_of};

use crate::step::Agent;
use terms::{TermError, TermId};

// In the order in which they are tested. Unmakeable has the missing term, ScriptFull the agent.
#[derive(Clone, Copy, PartialEq, Eq, Debug)]
pub enum Refusal {
    // agent, term, kind or form
    Unknown,
    // a part of a wrong kind
    WrongKind,
    // a new term beyond 512
    NoRoom,
    EighthParty,
    // initial knowledge after a step
    TooLate,
    // the listener sends or receives, or the sender is the receiver
    NoTwoParties,
    // a 65th step
    LastStep,
    // the receiver's name cannot be composed
    NoAddress,
    Unmakeable(TermId),
    ScriptFull(Agent),
}

impl Refusal {
    // The number by which a refusal is known.
    pub fn number(self) -> usize
        ensures { result ≡ number_of self }
    {
        match self {
            Refusal::Unknown => 1,
            Refusal::WrongKind => 2,
            Refusal::NoRoom => 3,
            Refusal::EighthParty => 4,
            Refusal::TooLate => 5,
            Refusal::NoTwoParties => 6,
            Refusal::LastStep => 7,
            Refusal::NoAddress => 8,
            Refusal::Unmakeable(_) => 9,
            Refusal::ScriptFull(_) => 10,
        }
    }

    // The missing term or the agent that it carries.
    pub fn value(self) -> Option<usize>
        ensures { result ≡ value_of self }
    {
        match self {
            Refusal::Unmakeable(term) => Some(term),
            Refusal::ScriptFull(agent) => Some(agent),
            Refusal::Unknown
            | Refusal::WrongKind
            | Refusal::NoRoom
            | Refusal::EighthParty
            | Refusal::TooLate
            | Refusal::NoTwoParties
            | Refusal::LastStep
            | Refusal::NoAddress => None,
        }
    }
}

// Why a protocol refuses a term that its table refuses.
impl From<TermError> for Refusal {
    ghost from_gives = { λ e r. r ≡ refused_as e };

    fn from(error: TermError) -> Refusal {
        match error {
            TermError::Unknown => Refusal::Unknown,
            TermError::WrongKind => Refusal::WrongKind,
            TermError::Full => Refusal::NoRoom,
        }
    }
}
