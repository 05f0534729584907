// The tokens of a text: words, brackets, ticks and line ends, each with the place of its first byte.
//
// A word is the longest run of letters and digits, and borrows its bytes from the text. Spaces part tokens. A byte that begins no
// token is handed back by its place. The text and the place determine the answer and the place where reading goes on.

#![tactic(auto)]

mod byte;
mod scanner;
mod theorems;

pub use byte::{Bracket, Shape};
pub use scanner::{Scanner, StrayByte, Token};
pub use theorems::tokens_are_determined;

#[cfg(test)]
mod tests {
    use super::*;
    use std::test::Fail;

    // What a token is written as; a bracket that the test has no use for is a question mark.
    fn written<'a>(token: Token<'a>) -> &'a [u8] {
        match token {
            Token::Word(word) => word,
            Token::Bracket(Bracket::Opens(Shape::Curly)) => b"{",
            Token::Bracket(Bracket::Closes(Shape::Curly)) => b"}",
            Token::Bracket(_) => b"?",
            Token::Tick => b"'",
            Token::LineEnd => b"",
        }
    }

    fn is_next(scanner: &mut Scanner<'_>, expected: &[u8], place: usize) -> bool {
        match scanner.next() {
            Ok((token, at)) => written(token) == expected && at == place,
            Err(_) => false,
        }
    }

    #[test]
    fn tokens_with_their_places(rt: HostRuntime) -> Result<(), Fail> {
        let mut scanner = Scanner::new(b"own U2  {M}K'\t\n 3");
        assert!(rt; is_next(&mut scanner, b"own", 0));
        assert!(rt; is_next(&mut scanner, b"U2", 4));
        assert!(rt; is_next(&mut scanner, b"{", 8));
        assert!(rt; is_next(&mut scanner, b"M", 9));
        assert!(rt; is_next(&mut scanner, b"}", 10));
        assert!(rt; is_next(&mut scanner, b"K", 11));
        assert!(rt; is_next(&mut scanner, b"'", 12));
        assert!(rt; matches!(scanner.next(), Err(StrayByte(13))));
        assert!(rt; is_next(&mut scanner, b"", 14));
        assert!(rt; is_next(&mut scanner, b"3", 16));
        assert!(rt; is_next(&mut scanner, b"", 17));
        assert!(rt; is_next(&mut scanner, b"", 17));
        Ok(())
    }
}
