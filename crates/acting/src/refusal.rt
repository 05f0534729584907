// Why a session or a run is refused.
ghost use Rattle.std.specs.Prelude.{◌≡◌};
ghost use Rattle.acting.specs.Refusals.{halt_refusal, number_of, value_of};

use crate::halt::Halt;
use provider::ProviderError;

// The provider's refusals have the term or instruction at which it was stopped; Wrong comes also where two values are not the same.
#[derive(Clone, Copy, PartialEq, Eq, Debug)]
pub enum SessionRefusal {
    // the agent is no party
    NoParty,
    // fewer readings than terms, or fewer slots than instructions
    NoMemory,
    NotItsTurn,
    ProviderFull(usize),
    ProviderWrong(usize),
}

impl SessionRefusal {
    // The number by which a refusal is known.
    pub fn number(self) -> usize
        ensures { result ≡ number_of self }
    {
        match self {
            SessionRefusal::NoParty => 1,
            SessionRefusal::NotItsTurn => 11,
            SessionRefusal::ProviderFull(_) => 12,
            SessionRefusal::ProviderWrong(_) => 13,
            SessionRefusal::NoMemory => 14,
        }
    }

    // The term or instruction that it carries.
    pub fn value(self) -> Option<usize>
        ensures { result ≡ value_of self }
    {
        match self {
            SessionRefusal::ProviderFull(at) | SessionRefusal::ProviderWrong(at) => Some(at),
            SessionRefusal::NoParty | SessionRefusal::NotItsTurn | SessionRefusal::NoMemory => None,
        }
    }
}

// The refusal of what a provider stopped.
impl From<Halt> for SessionRefusal {
    ghost from_gives = { λ halt refusal. refusal ≡ halt_refusal halt };

    fn from(halt: Halt) -> SessionRefusal {
        match halt.error {
            ProviderError::Full => SessionRefusal::ProviderFull(halt.at),
            ProviderError::Wrong => SessionRefusal::ProviderWrong(halt.at),
        }
    }
}
