// Tokens of a line that is told of.
ghost use Rattle.std.specs.Prelude.{◌≡◌, ◌<◌, IfSome};
ghost use Rattle.scan.specs.Tokens.{pos_of, text_of};

use scan::{Scanner, Token};

// The next token of a line; none at its end, and none where a stray byte stands.
#[tactic(auto, using(crate::proofs::Moves::moved_word, crate::proofs::Moves::moved_bracket, crate::proofs::Moves::moved_tick))]
pub(crate) fn next_token<'a>(scanner: &mut Scanner<'a>) -> Option<Token<'a>>
    ensures text { text_of scanner.new ≡ text_of scanner.old }
    ensures moves { IfSome result (λ _. pos_of scanner.old < pos_of scanner.new) }
{
    match scanner.next() {
        Ok((Token::Word(word), _)) => Some(Token::Word(word)),
        Ok((Token::Bracket(bracket), _)) => Some(Token::Bracket(bracket)),
        Ok((Token::Tick, _)) => Some(Token::Tick),
        Ok((Token::LineEnd, _)) | Err(_) => None,
    }
}

// The next token if it is a word.
pub(crate) fn next_word<'a>(scanner: &mut Scanner<'a>) -> Option<&'a [u8]>
    ensures text { text_of scanner.new ≡ text_of scanner.old }
    ensures moves { IfSome result (λ _. pos_of scanner.old < pos_of scanner.new) }
{
    match next_token(scanner) {
        Some(Token::Word(word)) => Some(word),
        Some(Token::Bracket(_) | Token::Tick | Token::LineEnd) | None => None,
    }
}
