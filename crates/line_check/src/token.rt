// The tokens of a line, and what is wrong with a name.
ghost use Rattle.std.specs.Prelude.{◌≡◌};
ghost use Rattle.scan.specs.Tokens.{Next, lexeme, pos_of, text_of};
ghost use Rattle.names.specs.Names.{known, look_up};
ghost use Rattle.syntax.specs.Grammar.{sign};
ghost use Rattle.syntax.specs.Words.{tok};
ghost use Rattle.line_check.specs.Faults.{is_party, name_fault};

use crate::fault::LineFault;
use names::{Named, Names};
use scan::{Scanner, StrayByte, Token};
use syntax::{NameUse, Sign, sign_of};
use terms::Kind;

// The next token and its place; no token where a stray byte stands.
pub(crate) fn next_token<'a>(scanner: &mut Scanner<'a>) -> (Option<Token<'a>>, usize)
    ensures next { Next (text_of scanner.old) (pos_of scanner.old) (lexeme result.0) result.1 (pos_of scanner.new) }
    ensures text { text_of scanner.new ≡ text_of scanner.old }
{
    match scanner.next() {
        Ok((token, place)) => (Some(token), place),
        Err(StrayByte(place)) => (None, place),
    }
}

pub(crate) fn sign_of_found(token: Option<Token<'_>>) -> Sign
    ensures { result ≡ sign (tok (lexeme token.entry)) }
{
    match token {
        Some(token) => sign_of(token),
        None => Sign::Stray,
    }
}

fn is_party(kind: Kind) -> bool
    ensures { result ≡ is_party kind }
{
    matches!(kind, Kind::Party)
}

// What is wrong with a name, by its use.
pub(crate) fn name_fault(
    usage: NameUse,
    known: Option<Named>,
    is_earlier: bool,
) -> Option<LineFault>
    ensures { result ≡ name_fault usage known is_earlier }
{
    match (usage, known) {
        (NameUse::Declared, None) if !is_earlier => None,
        (NameUse::Declared, _) => Some(LineFault::DeclaredTwice),
        (NameUse::Agent, Some(named)) if is_party(named.kind) => None,
        (NameUse::Part, Some(_)) => None,
        (NameUse::Agent | NameUse::Part, _) => Some(LineFault::Undeclared),
    }
}
