// The calls of one line.
ghost use Rattle.std.specs.Prelude.{◌≡◌, ◌<◌, ◌≤◌, ℕ, List, [], ◌∷◌, IfSome, OnOk};
ghost use Rattle.bounded.specs.Items.{items};
ghost use Rattle.scan.specs.Tokens.{lexeme, pos_of, text_of};
ghost use Rattle.syntax.specs.Grammar.{Line, Term, Tok, end, line_tokens, name, name_tokens, term_tokens};
ghost use Rattle.syntax.specs.Words.{tok};
ghost use Rattle.names.specs.Names.{known};
ghost use Rattle.protocol.specs.View.{view_of};
ghost use Rattle.table_text.specs.Ahead.{Ahead, Roomy};
ghost use Rattle.table_text.specs.Calls.{AllNamed, LineMade, Owns, Sends, agent_in};
ghost use Rattle.table_text.specs.Lines.{Declarable, IsWordOf, ReadsLine, keyword_in};

use crate::calls::{know, new_name, step};
use crate::fault::TextLineFault;
use crate::pairing::Parts;
use crate::term::term;
use crate::token::{next, next_sign};
use line_check::check_line;
use names::Names;
use protocol::{Agent, Protocol, Refusal};
use scan::{Scanner, Token};
use syntax::{Keyword, Sign};
use terms::Kind;

// The word of a token, if it is one.
fn word_of<'a>(token: Option<Token<'a>>) -> Option<&'a [u8]>
    ensures { IsWordOf (tok (lexeme token.entry)) result }
{
    match token {
        Some(Token::Word(word)) => Some(word),
        Some(Token::Bracket(_) | Token::Tick | Token::LineEnd) | None => None,
    }
}

// The word that comes next, if one does.
fn next_word<'a>(scanner: &mut Scanner<'a>) -> Option<&'a [u8]>
    ensures text { text_of scanner.new ≡ text_of scanner.old }
    ensures low { pos_of scanner.old ≤ pos_of scanner.new }
    ensures advances { IfSome result (λ w. pos_of scanner.old < pos_of scanner.new) }
    ensures word { (t : Tok) (ts : List Tok) → Ahead (text_of scanner.old) (pos_of scanner.old) (t ∷ ts)
        → IsWordOf t result × Ahead (text_of scanner.old) (pos_of scanner.new) ts }
{
    word_of(next(scanner))
}

// The agent whose name comes next.
fn agent(scanner: &mut Scanner<'_>, names: &Names<'_>) -> Agent
    ensures text { text_of scanner.new ≡ text_of scanner.old }
    ensures low { pos_of scanner.old ≤ pos_of scanner.new }
    ensures agent { (w : List ℕ) (ts : List Tok) → Ahead (text_of scanner.old) (pos_of scanner.old) (name w ∷ ts)
        → (result ≡ agent_in (known names.now) w) × Ahead (text_of scanner.old) (pos_of scanner.new) ts }
{
    match next_word(scanner) {
        Some(word) => names.agent(word).unwrap_or(0),
        None => 0,
    }
}

// The names of a declaration.
fn declare<'a>(
    scanner: &mut Scanner<'a>,
    names: &mut Names<'a>,
    protocol: &mut Protocol,
    kind: Kind,
) -> Result<(), Refusal>
    ensures { (ws : List (List ℕ)) → Ahead (text_of scanner.old) (pos_of scanner.old) (name_tokens ws (end ∷ []))
        → Declarable (known names.old) (view_of protocol.old)
        → AllNamed kind ws (known names.old) (view_of protocol.old) result (known names.new) (view_of protocol.new) }
{
    while let Some(word) = next_word(scanner) {
        let named = new_name(protocol, kind)?;
        let _declared = names.declare(word, named);
    }
    Ok(())
}

// Initial knowledge.
fn own(
    scanner: &mut Scanner<'_>,
    names: &Names<'_>,
    protocol: &mut Protocol,
    parts: &mut Parts,
) -> Result<(), Refusal>
    ensures { (p : List ℕ) (t : Term) → Ahead (text_of scanner.old) (pos_of scanner.old) (name p ∷ term_tokens t (end ∷ []))
        → Roomy (text_of scanner.old) (items parts.old) (pos_of scanner.old)
        → Owns (known names.now) p t (view_of protocol.old) result (view_of protocol.new)
        × OnOk result (items parts.new ≡ items parts.old) }
{
    let owner = agent(scanner, names);
    let known = term(scanner, names, protocol, parts)?;
    know(protocol, owner, known)
}

// A step.
fn send(
    scanner: &mut Scanner<'_>,
    names: &Names<'_>,
    protocol: &mut Protocol,
    parts: &mut Parts,
) -> Result<(), Refusal>
    ensures { (p : List ℕ) (q : List ℕ) (t : Term)
        → Ahead (text_of scanner.old) (pos_of scanner.old) (name p ∷ name q ∷ term_tokens t (end ∷ []))
        → Roomy (text_of scanner.old) (items parts.old) (pos_of scanner.old)
        → Sends (known names.now) p q t (view_of protocol.old) result (view_of protocol.new)
        × OnOk result (items parts.new ≡ items parts.old) }
{
    let sender = agent(scanner, names);
    let receiver = agent(scanner, names);
    let message = term(scanner, names, protocol, parts)?;
    step(protocol, sender, receiver, message)?;
    Ok(())
}

// The keyword that a sort of token is.
fn keyword_in(sign: Sign) -> Option<Keyword>
    ensures { result ≡ keyword_in sign }
{
    match sign {
        Sign::Keyword(keyword) => Some(keyword),
        Sign::Name | Sign::Opens(_) | Sign::Closes(_) | Sign::Tick | Sign::End | Sign::Stray => {
            None
        }
    }
}

// The calls of a line that was checked.
fn make_calls<'a>(
    scanner: &mut Scanner<'a>,
    names: &mut Names<'a>,
    protocol: &mut Protocol,
    parts: &mut Parts,
) -> Result<(), Refusal>
    ensures { (l : Line) → Ahead (text_of scanner.old) (pos_of scanner.old) (line_tokens l)
        → Roomy (text_of scanner.old) (items parts.old) (pos_of scanner.old) → Declarable (known names.old) (view_of protocol.old)
        → LineMade l (known names.old) (view_of protocol.old) result (known names.new) (view_of protocol.new)
        × OnOk result (items parts.new ≡ items parts.old) }
{
    match keyword_in(next_sign(scanner)) {
        Some(Keyword::Kind(kind)) => declare(scanner, names, protocol, kind),
        Some(Keyword::Own) => own(scanner, names, protocol, parts),
        Some(Keyword::Line) => send(scanner, names, protocol, parts),
        None => Ok(()),
    }
}

// Checks a line, and then makes its calls.
pub(crate) fn read_line<'a>(
    scanner: &mut Scanner<'a>,
    names: &mut Names<'a>,
    protocol: &mut Protocol,
    parts: &mut Parts,
) -> Result<(), TextLineFault>
    ensures text { text_of scanner.new ≡ text_of scanner.old }
    ensures reads { Roomy (text_of scanner.old) (items parts.old) (pos_of scanner.old) → Declarable (known names.old) (view_of protocol.old)
        → ReadsLine (known names.old) (text_of scanner.old) (pos_of scanner.old) (view_of protocol.old) result (pos_of scanner.new) (known names.new) (view_of protocol.new)
        × OnOk result (items parts.new ≡ items parts.old) }
{
    let mut again = *scanner;
    check_line(scanner, names)?;
    make_calls(&mut again, names, protocol, parts)?;
    Ok(())
}
