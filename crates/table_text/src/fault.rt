// Why a text is refused.
ghost use Rattle.std.specs.Prelude.{◌≡◌};
ghost use Rattle.table_text.specs.declared.fault.TextLineFault.TheVariants.{Protocol as of_protocol, Token as of_token};
ghost use Rattle.table_text.specs.Tables.{number_of, place_of};
ghost use Rattle.table_text.specs.Lines.{placed};

use line_check::LineError;
use protocol::Refusal;

// Why a line is refused: one of its tokens, or the protocol.
#[derive(Clone, Copy, PartialEq, Eq, Debug)]
pub enum TextLineFault {
    Token(LineError),
    Protocol(Refusal),
}

impl From<LineError> for TextLineFault {
    ghost from_gives = { λ error fault. fault ≡ of_token error };

    fn from(error: LineError) -> TextLineFault {
        TextLineFault::Token(error)
    }
}

impl From<Refusal> for TextLineFault {
    ghost from_gives = { λ refusal fault. fault ≡ of_protocol refusal };

    fn from(refusal: Refusal) -> TextLineFault {
        TextLineFault::Protocol(refusal)
    }
}

// Why a text is refused, with its place.
#[derive(Clone, Copy, PartialEq, Eq, Debug)]
pub enum TextFault {
    // more than 32,768 bytes
    TooLong,
    Token(LineError),
    // the refusal, and the first byte of its line
    Protocol(Refusal, usize),
}

impl TextFault {
    // The number by which a refusal is known.
    pub fn number(self) -> usize
        ensures { result ≡ number_of self }
    {
        match self {
            TextFault::TooLong => 15,
            TextFault::Token(error) => error.fault.number(),
            TextFault::Protocol(_, _) => 20,
        }
    }

    // The byte that it names.
    pub fn place(self) -> usize
        ensures { result ≡ place_of self }
    {
        match self {
            TextFault::TooLong => 32768,
            TextFault::Token(error) => error.place,
            TextFault::Protocol(_, place) => place,
        }
    }
}

// The fault of a line that begins at a place.
pub(crate) fn placed(fault: TextLineFault, line: usize) -> TextFault
    ensures { result ≡ placed fault line }
{
    match fault {
        TextLineFault::Token(error) => TextFault::Token(error),
        TextLineFault::Protocol(refusal) => TextFault::Protocol(refusal, line),
    }
}
