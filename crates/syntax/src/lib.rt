// The grammar of one line of a table, and its check in fixed memory.
//
// A line is granted exactly if it is a line of the grammar that never has more than 64 brackets open. Otherwise the answer names the
// first token that no line of the grammar can have there, or else the token that opens a 65th bracket. docs/TEXT.md shows the
// grammar.

#![tactic(auto)]

mod check;
mod machine;
mod mode;
mod sign;
mod theorems;
mod words;

pub use check::{SyntaxError, check_line};
pub use machine::{Machine, TokenFault};
pub use mode::NameUse;
pub use sign::{Keyword, Sign};
pub use theorems::{checks_are_determined, lines_are_unambiguous};
pub use words::sign_of;

#[cfg(test)]
mod tests {
    use super::*;
    use scan::Scanner;
    use std::test::Fail;

    const GRANTED: Result<(), SyntaxError> = Ok(());

    fn outside(place: usize) -> Result<(), SyntaxError> {
        Err(SyntaxError {
            fault: TokenFault::Outside,
            place,
        })
    }

    #[test]
    fn lines_of_the_grammar(rt: HostRuntime) -> Result<(), Fail> {
        for line in [
            b"".as_slice(),
            b"party U S",
            b"own U {(U J)}T[ U ] ''",
            b"line U S F<(a b c)>",
            b"line U S ({a}K' K)",
            b"table N1234567890abcd",
        ] {
            assert!(rt; check_line(&mut Scanner::new(line)) == GRANTED);
        }
        Ok(())
    }

    // The place is that of the first token that cannot stand there.
    #[test]
    fn lines_outside_the_grammar(rt: HostRuntime) -> Result<(), Fail> {
        for (line, place) in [
            (b"party".as_slice(), 5),
            (b"party own", 6),
            (b"party a\t", 7),
            (b"own A ()", 7),
            (b"own A (a)", 8),
            (b"own A {a b}k", 9),
            (b"own A {a}F<b>", 10),
            (b"own A (a b)'", 11),
            (b"table N1234567890abcdef", 6),
            (b"line U S 3", 9),
        ] {
            assert!(rt; check_line(&mut Scanner::new(line)) == outside(place));
        }
        Ok(())
    }

    // A line's sixty-fifth bracket is refused, and so is the bracket of an entry within sixty-four.
    #[test]
    fn brackets_open_at_once(rt: HostRuntime) -> Result<(), Fail> {
        let mut machine = Machine::new();
        for sign in [Sign::Keyword(Keyword::Own), Sign::Name] {
            assert!(rt; machine.step(sign) == Ok(()));
        }
        for _ in 0..64 {
            assert!(rt; machine.step(Sign::Opens(scan::Shape::Round)) == Ok(()));
        }
        assert!(rt; machine.step(Sign::Opens(scan::Shape::Curly)) == Err(TokenFault::TooDeep));
        assert!(rt; machine.step(Sign::Opens(scan::Shape::Angle)) == Err(TokenFault::Outside));
        assert!(rt; machine.step(Sign::Name) == Ok(()));
        assert!(rt; machine.step(Sign::Opens(scan::Shape::Square)) == Err(TokenFault::TooDeep));
        assert!(rt; !machine.is_done());
        Ok(())
    }
}
