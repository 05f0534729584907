// The check of one line against the names that earlier lines declared.
//
// A line is granted exactly if it is a line of the grammar, never has more than 64 brackets open, and uses its names rightly: a
// declaration has no name that is declared already, an agent is a party, and every other name is declared. Otherwise the answer
// names the first token that is wrong, and what is wrong with it.

#![tactic(auto)]

mod check;
mod earlier;
mod fault;
mod theorems;
mod token;

pub use check::check_line;
pub use fault::{LineError, LineFault};
pub use theorems::checks_are_determined;

#[cfg(test)]
mod tests {
    use super::*;
    use bounded::Full;
    use names::{Named, Names};
    use scan::Scanner;
    use std::test::Fail;
    use terms::Kind;

    // The parties A and B, and a number X.
    fn declared() -> Result<Names<'static>, Full> {
        let mut names = Names::new();
        for (term, (word, kind)) in [
            (b"A".as_slice(), Kind::Party),
            (b"B", Kind::Party),
            (b"X", Kind::Number),
        ]
        .into_iter()
        .enumerate()
        {
            names.declare(word, Named { kind, term })?;
        }
        Ok(names)
    }

    #[test]
    fn lines_with_declared_names(rt: HostRuntime) -> Result<(), Fail> {
        let names = declared()?;
        for line in [
            b"".as_slice(),
            b"party C D",
            b"own A X",
            b"line A B (X {A}X')",
        ] {
            assert!(rt; check_line(&mut Scanner::new(line), &names) == Ok(()));
        }
        Ok(())
    }

    // Tokens are judged in order, and a token's grammar before its name.
    #[test]
    fn the_first_wrong_token(rt: HostRuntime) -> Result<(), Fail> {
        let names = declared()?;
        for (line, number, place) in [
            (b"own A Y $".as_slice(), 17, 6),
            (b"own A B Y", 16, 8),
            (b"own X A", 17, 4),
            (b"line A own X", 16, 7),
            (b"party C A", 18, 8),
            (b"number C D C", 18, 11),
            (b"own A T[A]", 17, 6),
        ] {
            let answer = check_line(&mut Scanner::new(line), &names);
            assert!(rt;
                answer.is_err_and(|error| error.fault.number() == number && error.place == place)
            );
        }
        Ok(())
    }
}
