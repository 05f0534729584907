// The calls that build a term, whose tokens were checked: its parts from left to right before the whole.
ghost use Rattle.std.specs.Prelude.{◌≡◌, ◌<◌, ◌≤◌, ℕ, List, ◌∷◌, Some, OnOk, OnSome};
ghost use Rattle.bounded.specs.Items.{items};
ghost use Rattle.scan.specs.Tokens.{lexeme, line_end, pos_of, text_of};
ghost use Rattle.scan.specs.declared.byte.Shape.TheVariants.{Curly};
ghost use Rattle.syntax.specs.Grammar.{Key, Term, Tok, closes, key_tokens, name, term_tokens};
ghost use Rattle.syntax.specs.Words.{tok};
ghost use Rattle.names.specs.Names.{known};
ghost use Rattle.protocol.specs.View.{view_of};
ghost use Rattle.table_text.specs.Ahead.{Ahead, Apart, Read, Roomy, each_tokens};
ghost use Rattle.table_text.specs.Calls.{Made, number_in};
ghost use Rattle.table_text.specs.Collected.{Collected, SealedMade, TupleMade};
ghost use Rattle.table_text.specs.Openings.{Opened};

use crate::calls::{digest, seal};
use crate::key::key;
use crate::pairing::{Parts, pair_up};
use crate::token::{name, next, number_in, passes};
use names::Names;
use protocol::{Protocol, Refusal};
use scan::{Bracket, Scanner, Shape, Token};
use syntax::Sign;
use terms::TermId;

// What a term begins with.
#[derive(Clone, Copy)]
enum Opening<'a> {
    Tuple,
    Sealed,
    Name(&'a [u8]),
}

// The term that begins with this token, if one does.
fn opening_of(token: Token<'_>) -> Option<Opening<'_>>
    ensures opens { Opened result (tok (lexeme (Some token.entry))) }
    ensures goes_on { OnSome result (lexeme (Some token.entry) ≡ line_end → ⊥) }
{
    match token {
        Token::Word(word) => Some(Opening::Name(word)),
        Token::Bracket(Bracket::Opens(Shape::Round)) => Some(Opening::Tuple),
        Token::Bracket(Bracket::Opens(Shape::Curly)) => Some(Opening::Sealed),
        Token::Bracket(Bracket::Opens(Shape::Square | Shape::Angle) | Bracket::Closes(_))
        | Token::Tick
        | Token::LineEnd => None,
    }
}

// Reads the next token, and answers the term that begins with it, if one does.
fn read_opening<'a>(scanner: &mut Scanner<'a>) -> Option<Opening<'a>>
    ensures text { text_of scanner.new ≡ text_of scanner.old }
    ensures low { pos_of scanner.old ≤ pos_of scanner.new }
    ensures advances { OnSome result (pos_of scanner.old < pos_of scanner.new) }
    ensures opens { (x : Tok) (xs : List Tok) → Ahead (text_of scanner.old) (pos_of scanner.old) (x ∷ xs)
        → Opened result x × Ahead (text_of scanner.old) (pos_of scanner.new) xs }
{
    opening_of(next(scanner)?)
}

// The parts of a tuple, put behind the others.
#[cycle(term)]
fn collect(
    scanner: &mut Scanner<'_>,
    names: &Names<'_>,
    protocol: &mut Protocol,
    parts: &mut Parts,
) -> Result<(), Refusal>
    ensures text { text_of scanner.new ≡ text_of scanner.old }
    ensures low { pos_of scanner.old ≤ pos_of scanner.new }
    ensures made { (us : List Term) (ts : List Tok)
        → Ahead (text_of scanner.old) (pos_of scanner.old) (each_tokens us ts) → Roomy (text_of scanner.old) (items parts.old) (pos_of scanner.old)
        → Collected (known names.now) us (text_of scanner.old) ts (items parts.old) (view_of protocol.old) result (pos_of scanner.new) (view_of protocol.new) (items parts.new) }
{
    while let Some(first) = read_opening(scanner) {
        let part = term_from(first, scanner, names, protocol, parts)?;
        let _place = parts.push(part);
    }
    Ok(())
}

// A tuple whose bracket was read.
#[cycle(term)]
fn tuple(
    scanner: &mut Scanner<'_>,
    names: &Names<'_>,
    protocol: &mut Protocol,
    parts: &mut Parts,
) -> Result<TermId, Refusal>
    ensures text { text_of scanner.new ≡ text_of scanner.old }
    ensures low { pos_of scanner.old ≤ pos_of scanner.new }
    ensures made { (u : Term) (us : List Term) (ts : List Tok)
        → Ahead (text_of scanner.old) (pos_of scanner.old) (each_tokens (u ∷ us) ts) → Roomy (text_of scanner.old) (items parts.old) (pos_of scanner.old)
        → Read (TupleMade (known names.now) u us) (text_of scanner.old) ts (view_of protocol.old) result (pos_of scanner.new) (view_of protocol.new) × OnOk result (items parts.new ≡ items parts.old) }
{
    let from = parts.len();
    collect(scanner, names, protocol, parts)?;
    pair_up(protocol, parts, from)
}

// A sealed term whose bracket was read.
#[cycle(term)]
fn sealed(
    scanner: &mut Scanner<'_>,
    names: &Names<'_>,
    protocol: &mut Protocol,
    parts: &mut Parts,
) -> Result<TermId, Refusal>
    ensures text { text_of scanner.new ≡ text_of scanner.old }
    ensures low { pos_of scanner.old ≤ pos_of scanner.new }
    ensures made { (t : Term) (k : Key) (ts : List Tok) → Apart ts
        → Ahead (text_of scanner.old) (pos_of scanner.old) (term_tokens t (closes Curly ∷ key_tokens k ts)) → Roomy (text_of scanner.old) (items parts.old) (pos_of scanner.old)
        → Read (SealedMade (known names.now) t k) (text_of scanner.old) ts (view_of protocol.old) result (pos_of scanner.new) (view_of protocol.new) × OnOk result (items parts.new ≡ items parts.old) }
{
    let content = term(scanner, names, protocol, parts)?;
    let _close = next(scanner);
    let sealer = name(scanner, names);
    let sealer = key(scanner, names, protocol, sealer)?;
    seal(protocol, content, sealer)
}

// A term that begins with a name, which was read.
#[cycle(term)]
fn named(
    scanner: &mut Scanner<'_>,
    names: &Names<'_>,
    protocol: &mut Protocol,
    parts: &mut Parts,
    number: TermId,
) -> Result<TermId, Refusal>
    ensures text { text_of scanner.new ≡ text_of scanner.old }
    ensures low { pos_of scanner.old ≤ pos_of scanner.new }
    ensures made { (t : Term) (w : List ℕ) (rest ts : List Tok) → Apart ts → name w ∷ rest ≡ term_tokens t ts → number ≡ number_in (known names.now) w
        → Ahead (text_of scanner.old) (pos_of scanner.old) rest → Roomy (text_of scanner.old) (items parts.old) (pos_of scanner.old)
        → Read (Made (known names.now) t) (text_of scanner.old) ts (view_of protocol.old) result (pos_of scanner.new) (view_of protocol.new) × OnOk result (items parts.new ≡ items parts.old) }
{
    if !passes(scanner, Sign::Opens(Shape::Angle)) {
        return key(scanner, names, protocol, number);
    }
    let content = term(scanner, names, protocol, parts)?;
    let _close = next(scanner);
    digest(protocol, number, content)
}

// A term whose first token was read.
#[cycle(term)]
fn term_from(
    first: Opening<'_>,
    scanner: &mut Scanner<'_>,
    names: &Names<'_>,
    protocol: &mut Protocol,
    parts: &mut Parts,
) -> Result<TermId, Refusal>
    ensures text { text_of scanner.new ≡ text_of scanner.old }
    ensures low { pos_of scanner.old ≤ pos_of scanner.new }
    ensures made { (t : Term) (x : Tok) (rest ts : List Tok) → Apart ts → x ∷ rest ≡ term_tokens t ts → Opened (Some first.entry) x
        → Ahead (text_of scanner.old) (pos_of scanner.old) rest → Roomy (text_of scanner.old) (items parts.old) (pos_of scanner.old)
        → Read (Made (known names.now) t) (text_of scanner.old) ts (view_of protocol.old) result (pos_of scanner.new) (view_of protocol.new) × OnOk result (items parts.new ≡ items parts.old) }
{
    match first {
        Opening::Tuple => tuple(scanner, names, protocol, parts),
        Opening::Sealed => sealed(scanner, names, protocol, parts),
        Opening::Name(word) => named(scanner, names, protocol, parts, number_in(names, word)),
    }
}

// The term that comes next.
#[cycle(term)]
pub(crate) fn term(
    scanner: &mut Scanner<'_>,
    names: &Names<'_>,
    protocol: &mut Protocol,
    parts: &mut Parts,
) -> Result<TermId, Refusal>
    ensures text { text_of scanner.new ≡ text_of scanner.old }
    ensures low { pos_of scanner.old ≤ pos_of scanner.new }
    ensures made { (t : Term) (ts : List Tok) → Apart ts → Ahead (text_of scanner.old) (pos_of scanner.old) (term_tokens t ts) → Roomy (text_of scanner.old) (items parts.old) (pos_of scanner.old)
        → Read (Made (known names.now) t) (text_of scanner.old) ts (view_of protocol.old) result (pos_of scanner.new) (view_of protocol.new) × OnOk result (items parts.new ≡ items parts.old) }
{
    match read_opening(scanner) {
        Some(first) => term_from(first, scanner, names, protocol, parts),
        None => Ok(0),
    }
}
