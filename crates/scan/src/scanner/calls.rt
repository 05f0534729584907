// How a text is read token by token.
ghost use Rattle.std.specs.Prelude.{◌≡◌, ℕ, ◌+◌, ◌<◌, ◌≤◌, length};
ghost use Rattle.scan.specs.Tokens.{IsNoSpace, Next, Stands, lexeme, lexeme_of, place_of, pos_of, text_of};

use super::{Scanner, StrayByte, Token};
use crate::byte::{ByteClass, run_end};

// The token at a place where no space stands, and the place after it; None where a stray byte stands.
fn token_at(text: &[u8], place: usize) -> (Option<Token<'_>>, usize)
    requires within { place ≤ length text.now }
    requires no_space { IsNoSpace text.now place }
    ensures token { Stands text.now (lexeme result.0) place result.1 }
    ensures within { result.1 ≤ length text.now }
{
    if place == text.len() {
        return (Some(Token::LineEnd), place);
    }
    match ByteClass::of(text[place]) {
        ByteClass::Word => {
            let end = run_end(text, place, ByteClass::Word);
            (Some(Token::Word(&text[place..end])), end)
        }
        ByteClass::Bracket(bracket) => (Some(Token::Bracket(bracket)), place + 1),
        ByteClass::Tick => (Some(Token::Tick), place + 1),
        ByteClass::LineEnd => (Some(Token::LineEnd), place + 1),
        ByteClass::Space | ByteClass::Stray => (None, place + 1),
    }
}

impl<'a> Scanner<'a> {
    // Begins at the first byte.
    pub fn new(text: &'a [u8]) -> Scanner<'a>
        ensures text { text_of result ≡ text.now }
        ensures pos { pos_of result ≡ 0 }
    {
        Scanner { text, pos: 0 }
    }

    // The place where reading goes on.
    pub fn pos(&self) -> usize
        ensures is { result ≡ pos_of self.now }
        ensures within { result ≤ length (text_of self.now) }
    {
        self.pos
    }

    // The next token and its place. After the last line end it is a line end at the text's length, again and again.
    pub fn next(&mut self) -> Result<(Token<'a>, usize), StrayByte>
        ensures next { Next (text_of self.old) (pos_of self.old) (lexeme_of result) (place_of result) (pos_of self.new) }
        ensures text { text_of self.new ≡ text_of self.old }
    {
        let place = run_end(self.text, self.pos, ByteClass::Space);
        let (token, end) = token_at(self.text, place);
        *self = Scanner {
            text: self.text,
            pos: end,
        };
        match token {
            Some(token) => Ok((token, place)),
            None => Err(StrayByte(place)),
        }
    }
}
