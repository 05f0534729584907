// Whether a name stands earlier in its line.
ghost use Rattle.std.specs.Prelude.{◌≡◌, ◌≤◌, length, List, ℕ};
ghost use Rattle.std.specs.Str.{bytes_eq};
ghost use Rattle.scan.specs.Tokens.{pos_of, text_of};
ghost use Rattle.syntax.specs.Grammar.{Tok, name};
ghost use Rattle.syntax.specs.Check.{Come};
ghost use Rattle.syntax.specs.Words.{of_word, tok};
ghost use Rattle.scan.specs.Tokens.{lexeme};
ghost use Rattle.line_check.specs.Faults.{is_earlier, is_name_of};

use crate::token::next_token;
use scan::{Scanner, Token};

fn is(word: &[u8], other: &[u8]) -> bool
    ensures { result ≡ bytes_eq word.now other.now }
{
    word == other
}

// Whether a token is this word.
fn is_word(token: Option<Token<'_>>, word: &[u8]) -> bool
    ensures { of_word word.now ≡ name word.now → result ≡ is_name_of (tok (lexeme token.entry)) word.now }
{
    match token {
        Some(Token::Word(other)) => is(other, word),
        Some(Token::Bracket(_) | Token::Tick | Token::LineEnd) | None => false,
    }
}

// Whether a name is among the tokens from the beginning of the line to a place.
pub(crate) fn is_earlier(line: &Scanner<'_>, end: usize, word: &[u8]) -> bool
    requires { end ≤ length (text_of line.now) }
    ensures { (ts : List Tok) → of_word word.now ≡ name word.now → Come (text_of line.now) (pos_of line.now) ts end → result ≡ is_earlier ts word.now }
{
    let mut scanner = *line;
    while scanner.pos() < end {
        let (token, _) = next_token(&mut scanner);
        if is_word(token, word) {
            return true;
        }
    }
    false
}
