// What the scanner's tokens are to the grammar.
ghost use Rattle.std.specs.Prelude.{◌≡◌, ℕ, Some};
ghost use Rattle.std.specs.Str.{bytes_eq};
ghost use Rattle.scan.specs.Tokens.{lexeme};
ghost use Rattle.syntax.specs.Grammar.{sign};
ghost use Rattle.syntax.specs.Words.{may_be_name, of_bracket, of_word, tok};

use crate::sign::{Keyword, Sign};
use scan::{Bracket, Token};
use terms::Kind;

// Whether a word of letters and digits is short enough for a name, and a letter comes first.
fn may_be_name(word: &[u8]) -> bool
    ensures { result ≡ may_be_name word.now }
{
    word.len() <= 16 && word.first().is_some_and(|byte| byte.is_ascii_alphabetic())
}

fn is(word: &[u8], other: &[u8]) -> bool
    ensures { result ≡ bytes_eq word.now other.now }
{
    word == other
}

fn sign_of_word(word: &[u8]) -> Sign
    ensures { result ≡ sign (of_word word.now) }
{
    if is(word, b"party") {
        Sign::Keyword(Keyword::Kind(Kind::Party))
    } else if is(word, b"number") {
        Sign::Keyword(Keyword::Kind(Kind::Number))
    } else if is(word, b"shared") {
        Sign::Keyword(Keyword::Kind(Kind::Shared))
    } else if is(word, b"public") {
        Sign::Keyword(Keyword::Kind(Kind::Public))
    } else if is(word, b"table") {
        Sign::Keyword(Keyword::Kind(Kind::Table))
    } else if is(word, b"function") {
        Sign::Keyword(Keyword::Kind(Kind::Function))
    } else if is(word, b"own") {
        Sign::Keyword(Keyword::Own)
    } else if is(word, b"line") {
        Sign::Keyword(Keyword::Line)
    } else if may_be_name(word) {
        Sign::Name
    } else {
        Sign::Stray
    }
}

fn sign_of_bracket(bracket: Bracket) -> Sign
    ensures { result ≡ sign (of_bracket bracket) }
{
    match bracket {
        Bracket::Opens(shape) => Sign::Opens(shape),
        Bracket::Closes(shape) => Sign::Closes(shape),
    }
}

pub fn sign_of(token: Token<'_>) -> Sign
    ensures { result ≡ sign (tok (lexeme (Some token.entry))) }
{
    match token {
        Token::Word(word) => sign_of_word(word),
        Token::Bracket(bracket) => sign_of_bracket(bracket),
        Token::Tick => Sign::Tick,
        Token::LineEnd => Sign::End,
    }
}
