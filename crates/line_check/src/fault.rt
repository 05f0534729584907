// Why a token of a line is refused.
ghost use Rattle.std.specs.Prelude.{◌≡◌};
ghost use Rattle.line_check.specs.Faults.{fault_number, of_token};

use syntax::TokenFault;

#[derive(Clone, Copy, PartialEq, Eq, Debug)]
pub enum LineFault {
    // no line of the grammar can have it there
    Outside,
    // a name that is not declared, or is no party where an agent is due
    Undeclared,
    DeclaredTwice,
    // it opens a 65th bracket
    TooDeep,
}

// The fault, and the place of its token.
#[derive(Clone, Copy, PartialEq, Eq, Debug)]
pub struct LineError {
    pub fault: LineFault,
    pub place: usize,
}

impl LineFault {
    // The number by which a refusal is known.
    pub fn number(self) -> usize
        ensures { result ≡ fault_number self }
    {
        match self {
            LineFault::Outside => 16,
            LineFault::Undeclared => 17,
            LineFault::DeclaredTwice => 18,
            LineFault::TooDeep => 19,
        }
    }
}

impl From<TokenFault> for LineFault {
    ghost from_gives = { λ fault result. result ≡ of_token fault };

    fn from(fault: TokenFault) -> LineFault {
        match fault {
            TokenFault::Outside => LineFault::Outside,
            TokenFault::TooDeep => LineFault::TooDeep,
        }
    }
}
