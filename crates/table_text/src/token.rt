// The tokens of a line that was checked.
ghost use Rattle.std.specs.Prelude.{◌≡◌, ◌<◌, ◌≤◌, ◌↔◌, IsTrue, ℕ, true, List, ◌∷◌};
ghost use Rattle.scan.specs.Tokens.{lexeme, line_end, pos_of, text_of};
ghost use Rattle.syntax.specs.Grammar.{Tok, name, sign as sort};
ghost use Rattle.syntax.specs.Words.{tok};
ghost use Rattle.names.specs.Names.{known};
ghost use Rattle.table_text.specs.Ahead.{Ahead, Passes};
ghost use Rattle.table_text.specs.Calls.{number_in};

use names::Names;
use scan::{Scanner, Token};
use syntax::{Sign, sign_of};
use terms::TermId;

// The next token; none where a stray byte stands.
pub(crate) fn next<'a>(scanner: &mut Scanner<'a>) -> Option<Token<'a>>
    ensures text { text_of scanner.new ≡ text_of scanner.old }
    ensures low { pos_of scanner.old ≤ pos_of scanner.new }
    ensures advances { (lexeme result ≡ line_end → ⊥) → pos_of scanner.old < pos_of scanner.new }
    ensures next { (t : Tok) (ts : List Tok) → Ahead (text_of scanner.old) (pos_of scanner.old) (t ∷ ts)
        → (t ≡ tok (lexeme result)) × Ahead (text_of scanner.old) (pos_of scanner.new) ts }
{
    match scanner.next() {
        Ok((token, _)) => Some(token),
        Err(_) => None,
    }
}

// The sort of the next token.
pub(crate) fn next_sign(scanner: &mut Scanner<'_>) -> Sign
    ensures text { text_of scanner.new ≡ text_of scanner.old }
    ensures low { pos_of scanner.old ≤ pos_of scanner.new }
    ensures advances { (result ≡ Sign.End → ⊥) → pos_of scanner.old < pos_of scanner.new }
    ensures next { (t : Tok) (ts : List Tok) → Ahead (text_of scanner.old) (pos_of scanner.old) (t ∷ ts)
        → (sort t ≡ result) × Ahead (text_of scanner.old) (pos_of scanner.new) ts }
{
    match next(scanner) {
        Some(token) => sign_of(token),
        None => Sign::Stray,
    }
}

fn is(sign: Sign, other: Sign) -> bool
    ensures { IsTrue result ↔ (sign ≡ other) }
{
    sign == other
}

// Passes over the next token if it is of this sort.
pub(crate) fn passes(scanner: &mut Scanner<'_>, sign: Sign) -> bool
    ensures text { text_of scanner.new ≡ text_of scanner.old }
    ensures low { pos_of scanner.old ≤ pos_of scanner.new }
    ensures advances { (sign ≡ Sign.End → ⊥) → result ≡ true → pos_of scanner.old < pos_of scanner.new }
    ensures passes { (t : Tok) (ts : List Tok) → Ahead (text_of scanner.old) (pos_of scanner.old) (t ∷ ts)
        → Passes (text_of scanner.old) sign t ts result (pos_of scanner.new) }
{
    let mut ahead = *scanner;
    if !is(next_sign(&mut ahead), sign) {
        return false;
    }
    *scanner = ahead;
    true
}

// The number of the term that a word was declared as.
pub(crate) fn number_in(names: &Names<'_>, word: &[u8]) -> TermId
    ensures { result ≡ number_in (known names.now) word.now }
{
    names.get(word).map_or(0, |named| named.term)
}

// The number of the term of a token that is a name.
fn number_of(names: &Names<'_>, token: Token<'_>) -> TermId
    ensures { (w : List ℕ) → name w ≡ tok (lexeme (Some token.entry)) → result ≡ number_in (known names.now) w }
{
    match token {
        Token::Word(word) => number_in(names, word),
        Token::Bracket(_) | Token::Tick | Token::LineEnd => 0,
    }
}

// The number of the name that comes next.
pub(crate) fn name(scanner: &mut Scanner<'_>, names: &Names<'_>) -> TermId
    ensures text { text_of scanner.new ≡ text_of scanner.old }
    ensures low { pos_of scanner.old ≤ pos_of scanner.new }
    ensures name { (w : List ℕ) (ts : List Tok) → Ahead (text_of scanner.old) (pos_of scanner.old) (name w ∷ ts)
        → (result ≡ number_in (known names.now) w) × Ahead (text_of scanner.old) (pos_of scanner.new) ts }
{
    match next(scanner) {
        Some(token) => number_of(names, token),
        None => 0,
    }
}
