// The check of one line.
ghost use Rattle.std.specs.Prelude.{◌≡◌, ◌≤◌, length, List};
ghost use Rattle.scan.specs.Tokens.{lexeme, pos_of, text_of};
ghost use Rattle.names.specs.Names.{known};
ghost use Rattle.syntax.specs.Grammar.{Tok, name};
ghost use Rattle.syntax.specs.Check.{Come};
ghost use Rattle.syntax.specs.Uses.{use_after};
ghost use Rattle.syntax.specs.Words.{of_word, tok};
ghost use Rattle.line_check.specs.Check.{Checks};
ghost use Rattle.line_check.specs.Faults.{fault_after, first_fault, is_again, is_earlier};

use crate::earlier::is_earlier;
use crate::fault::{LineError, LineFault};
use crate::token::{name_fault, next_token, sign_of_found};
use names::Names;
use scan::{Scanner, Token};
use syntax::{Machine, NameUse, TokenFault};

// Whether a name is declared that stands earlier in its line. Nothing else has to look there.
fn is_again(line: &Scanner<'_>, end: usize, word: &[u8], usage: NameUse) -> bool
    requires { end ≤ length (text_of line.now) }
    ensures { (ts : List Tok) → of_word word.now ≡ name word.now → Come (text_of line.now) (pos_of line.now) ts end → result ≡ is_again usage (is_earlier ts word.now) }
{
    match usage {
        NameUse::Declared => is_earlier(line, end, word),
        NameUse::Agent | NameUse::Part => false,
    }
}

// What is wrong with a token as a name, if it is one: the line begins at the scanner, and the tokens before it end at a place.
fn token_fault(
    line: &Scanner<'_>,
    end: usize,
    token: Option<Token<'_>>,
    usage: NameUse,
    names: &Names<'_>,
) -> Option<LineFault>
    requires { end ≤ length (text_of line.now) }
    ensures { (ts : List Tok) → Come (text_of line.now) (pos_of line.now) ts end → usage ≡ use_after ts → result ≡ fault_after (known names.now) ts (tok (lexeme token.entry)) }
{
    match token {
        Some(Token::Word(word)) if sign_of_found(token).is_name() => {
            name_fault(usage, names.get(word), is_again(line, end, word, usage))
        }
        Some(Token::Word(_) | Token::Bracket(_) | Token::Tick | Token::LineEnd) | None => None,
    }
}

// What is wrong with a token: its grammar comes before its name.
fn first_fault(judged: Result<(), TokenFault>, named: Option<LineFault>) -> Option<LineFault>
    ensures { result ≡ first_fault judged named }
{
    match judged {
        Err(fault) => Some(fault.into()),
        Ok(()) => named,
    }
}

// Checks the tokens of one line in order. The scanner is left after the line, or after the token that is refused.
pub fn check_line(scanner: &mut Scanner<'_>, names: &Names<'_>) -> Result<(), LineError>
    ensures checks { Checks (known names.now) (text_of scanner.old) (pos_of scanner.old) result (pos_of scanner.new) }
    ensures text { text_of scanner.new ≡ text_of scanner.old }
{
    let line = *scanner;
    let mut machine = Machine::new();
    while !machine.is_done() {
        let end = scanner.pos();
        let usage = machine.name_use();
        let (token, place) = next_token(scanner);
        let judged = machine.step(sign_of_found(token));
        let named = token_fault(&line, end, token, usage, names);
        if let Some(fault) = first_fault(judged, named) {
            return Err(LineError { fault, place });
        }
    }
    Ok(())
}
