// The check of one line.
ghost use Rattle.std.specs.Prelude.{◌≡◌};
ghost use Rattle.scan.specs.Tokens.{pos_of, text_of};
ghost use Rattle.syntax.specs.Check.{Checks, Signs};

use crate::machine::{Machine, TokenFault};
use crate::sign::Sign;
use crate::words::sign_of;
use scan::{Scanner, StrayByte};

// Which token is refused, by the place of its first byte.
#[derive(Clone, Copy, PartialEq, Eq, Debug)]
pub struct SyntaxError {
    pub fault: TokenFault,
    pub place: usize,
}

// The sign and the place of the next token.
fn next_sign(scanner: &mut Scanner<'_>) -> (Sign, usize)
    ensures signs { Signs (text_of scanner.old) (pos_of scanner.old) result.0 result.1 (pos_of scanner.new) }
    ensures text { text_of scanner.new ≡ text_of scanner.old }
{
    match scanner.next() {
        Ok((token, place)) => (sign_of(token), place),
        Err(StrayByte(place)) => (Sign::Stray, place),
    }
}

// Checks the tokens of one line in order. The scanner is left after the line, or after the token that is refused.
pub fn check_line(scanner: &mut Scanner<'_>) -> Result<(), SyntaxError>
    ensures checks { Checks (text_of scanner.old) (pos_of scanner.old) result (pos_of scanner.new) }
    ensures text { text_of scanner.new ≡ text_of scanner.old }
{
    let mut machine = Machine::new();
    while !machine.is_done() {
        let (sign, place) = next_sign(scanner);
        if let Err(fault) = machine.step(sign) {
            return Err(SyntaxError { fault, place });
        }
    }
    Ok(())
}
