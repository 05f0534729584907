// What a person is told of a table that is refused, and terms in the table's own notation.
//
// A refusal is one line for programs, and one sentence for people: where it is, what is wrong and what would mend it. Lines and columns
// count from 1. A term is written as a table writes it, with the names that the text declared.

#![tactic(auto)]

mod due;
mod explanation;
mod kinds;
mod misuse;
mod notation;
mod place;
mod protocol_faults;
mod refused;
mod statement;
mod telling;
mod token_faults;
mod tokens;
mod word;

pub use explanation::Explanation;
pub use notation::{AgentText, Table, TermText};
pub use place::Place;
pub use refused::RefusedLine;
pub use telling::tell_refusal;

#[cfg(test)]
mod tests {
    use super::*;
    use names::Names;
    use protocol::Protocol;
    use std::alloc::Global;
    use std::fmt::Write;
    use std::test::Fail;
    use table_text::read_lines;

    // Whether a text is refused in these words.
    fn is_told(rt: &HostRuntime, text: &[u8], line: &str, sentence: &str) -> Result<bool, Fail> {
        let mut protocol = Protocol::blank();
        let mut names = Names::new();
        match read_lines(&mut protocol, &mut names, text) {
            Ok(()) => Ok(false),
            Err(fault) => {
                let refused = format!(in rt.alloc(); "{}", RefusedLine(fault))?;
                let told = format!(in rt.alloc();
                    "{}",
                    Explanation::new(
                        text,
                        fault,
                        Table {
                            protocol: &protocol,
                            names: &names
                        }
                    )
                )?;
                Ok(refused.as_str() == line && told.as_str() == sentence)
            }
        }
    }

    // A table whose only step sends a term from U to S, who has all that there is.
    fn table_with(rt: &HostRuntime, term: &str) -> Result<String<Global>, Fail> {
        let names = "party U S\nshared K\npublic P\ntable T\nfunction F\n";
        let known = "own U S\nown U K\nown U P\nown U P'\nown U T\nown U T[S]'\nown U F\n";
        Ok(format!(in rt.alloc(); "{names}{known}line U S {term}\n")?)
    }

    // A shared key is its own mate, and a tuple at the end of a tuple needs no brackets.
    #[test]
    fn terms_in_the_notation_of_tables(rt: HostRuntime) -> Result<(), Fail> {
        for (term, written) in [
            ("U", "U"),
            ("(U S U)", "(U S U)"),
            ("(U (S (U S)))", "(U S U S)"),
            ("((U S) U)", "((U S) U)"),
            ("{ (U {S}P') } K", "{(U {S}P')}K"),
            ("{U}K'", "{U}K"),
            ("P''", "P"),
            ("{F<(U S)>}T[ S ] '", "{F<(U S)>}T[S]'"),
        ] {
            let text = table_with(&rt, term)?;
            let mut protocol = Protocol::blank();
            let mut names = Names::new();
            assert!(rt; read_lines(&mut protocol, &mut names, text.as_bytes()) == Ok(()));
            let message = protocol.step(0).map_or(0, |step| step.message);
            let table = Table {
                protocol: &protocol,
                names: &names,
            };
            let told = format!(in rt.alloc(); "{}", table.term(message))?;
            assert!(rt; told.as_str() == written);
        }
        Ok(())
    }

    // Tokens outside the grammar, with what may stand in their place.
    #[test]
    fn outside_the_grammar(rt: HostRuntime) -> Result<(), Fail> {
        for (text, line, sentence) in [
            (
                b"party U S\nown U {U S}K".as_slice(),
                "refused 16 19",
                "line 2, column 10: 'S' cannot stand here: write '[', '<', '}' or a tick here.",
            ),
            (
                b"party U\nown U U U",
                "refused 16 16",
                "line 2, column 9: 'U' cannot stand here: write '[', '<' or a tick, or end the line here.",
            ),
            (
                b"party U\n\nown U ()",
                "refused 16 16",
                "line 3, column 8: ')' cannot stand here: write a name, '(' or '{' here.",
            ),
            (
                b"party",
                "refused 16 5",
                "line 1, column 6: the line cannot end here: write a new name here.",
            ),
            (
                b"party U\nown U",
                "refused 16 13",
                "line 2, column 6: the line cannot end here: write a name, '(' or '{' here.",
            ),
            (
                b"party U\nown line U",
                "refused 16 12",
                "line 2, column 5: 'line' begins a line, and no name is called so: write the name of a party here.",
            ),
            (
                b"party 3",
                "refused 16 6",
                "line 1, column 7: '3' is no name, since it begins with a digit: write a new name here.",
            ),
            (
                b"party Abcdefghijklmnopq",
                "refused 16 6",
                "line 1, column 7: 'Abcdefghijklmnop..' is longer than a name, which has at most 16 letters and digits: write a new name here.",
            ),
            (
                b"party U # pilot",
                "refused 16 8",
                "line 1, column 9: '#' stands for nothing in a table: write a new name, or end the line here.",
            ),
            (
                b"party U\tS",
                "refused 16 7",
                "line 1, column 8: a tab stands for nothing in a table: write a new name, or end the line here.",
            ),
            (
                b"party U\r\n",
                "refused 16 7",
                "line 1, column 8: a carriage return stands for nothing in a table: write a new name, or end the line here.",
            ),
            (
                b"party U\xc3\xa9",
                "refused 16 7",
                "line 1, column 8: byte 195 stands for nothing in a table: write a new name, or end the line here.",
            ),
            (
                b"party U\n'",
                "refused 16 8",
                "line 2, column 1: a tick cannot stand here: write 'party', 'number', 'shared', 'public', 'table', 'function', 'own' or 'line', or end the line here.",
            ),
            (
                b"party U\nown U {U}U[U",
                "refused 16 20",
                "line 2, column 13: the line cannot end here: write ']' here.",
            ),
        ] {
            assert!(rt; is_told(&rt, text, line, sentence)?);
        }
        Ok(())
    }

    // Names that are not declared, or declared twice, and a bracket too deep.
    #[test]
    fn names_and_brackets(rt: HostRuntime) -> Result<(), Fail> {
        for (text, line, sentence) in [
            (
                b"party U S\nown U X $".as_slice(),
                "refused 17 16",
                "line 2, column 7: 'X' is not declared: declare it in a line before, with its kind, as in 'number X'.",
            ),
            (
                b"party U\nline U S U",
                "refused 17 15",
                "line 2, column 8: 'S' is not declared: declare it in a line before, as in 'party S'.",
            ),
            (
                b"party U\nown U T[U]",
                "refused 17 14",
                "line 2, column 7: 'T' is not declared: declare it in a line before, as in 'table T'.",
            ),
            (
                b"party U\nown U F<U>",
                "refused 17 14",
                "line 2, column 7: 'F' is not declared: declare it in a line before, as in 'function F'.",
            ),
            (
                b"party U\nshared K\nown K U",
                "refused 17 21",
                "line 3, column 5: 'K' is a shared key, and only parties start with something, send and receive: write the name of a party.",
            ),
            (
                b"party A\nnumber A",
                "refused 18 15",
                "line 2, column 8: 'A' is declared already, as a party: leave it out, or choose another name.",
            ),
            (
                b"table T\npublic K K",
                "refused 18 17",
                "line 2, column 10: 'K' stands twice in this declaration: leave it out, or choose another name.",
            ),
            (
                b"party U\nown U ((((((((((((((((((((((((((((((((((((((((((((((((((((((((((((((((((",
                "refused 19 78",
                "line 2, column 71: this would be the 65th bracket open at once, and 64 may be: write the message with fewer brackets inside each other.",
            ),
        ] {
            assert!(rt; is_told(&rt, text, line, sentence)?);
        }
        Ok(())
    }

    // Names that are used as what they are not.
    #[test]
    fn wrong_kinds(rt: HostRuntime) -> Result<(), Fail> {
        for (text, line, sentence) in [
            (
                b"party U\nown U {U}U".as_slice(),
                "refused 20 8 2",
                "line 2, column 1: U is a party and seals nothing: seal under a shared or public key, an entry or the mate of one.",
            ),
            (
                b"party U\nown U U'",
                "refused 20 8 2",
                "line 2, column 1: U is a party and has no mate: write the tick behind a shared or public key or an entry.",
            ),
            (
                b"party U\nnumber N\nown U N[U]",
                "refused 20 17 2",
                "line 3, column 1: N is a number and has no entries: write the name of a table in front of '['.",
            ),
            (
                b"party U\ntable T\nown U T[T]",
                "refused 20 16 2",
                "line 3, column 1: T is a table and has no entry in a table: write the name of a party between '[' and ']'.",
            ),
            (
                b"party U\ntable T\nown U {T[U]}U",
                "refused 20 16 2",
                "line 3, column 1: U is a party and seals nothing: seal under a shared or public key, an entry or the mate of one.",
            ),
            (
                b"party U\npublic K\nown U K<U>",
                "refused 20 17 2",
                "line 3, column 1: K is a public key and makes no digest: write the name of a function in front of '<'.",
            ),
            (
                b"party U\nfunction F\nown U F'",
                "refused 20 19 2",
                "line 3, column 1: F is a function and has no mate: write the tick behind a shared or public key or an entry.",
            ),
        ] {
            assert!(rt; is_told(&rt, text, line, sentence)?);
        }
        Ok(())
    }

    // What the protocol refuses.
    #[test]
    fn refused_lines(rt: HostRuntime) -> Result<(), Fail> {
        for (text, line, sentence) in [
            (
                b"party A B C D E F G H".as_slice(),
                "refused 20 0 4",
                "line 1, column 1: H would be the eighth party, and a table has at most seven: leave one out.",
            ),
            (
                b"party U S\nown U S\nline U S U\n  own S U",
                "refused 20 29 5",
                "line 4, column 1: what S starts with is said after the first step: write this line in front of the first that begins with 'line'.",
            ),
            (
                b"party U\nline U U U",
                "refused 20 8 6",
                "line 2, column 1: U would send to itself: write another receiver.",
            ),
            (
                b"party U S\nnumber J\n line U S (U J)",
                "refused 20 19 8",
                "line 3, column 1: U cannot address this message, because U does not have the name of S: give it with 'own U S' before the first step, or have it sent to U before.",
            ),
            (
                b"party U S\nshared K\nown U S\nown S K\nline U S (U {U}K)",
                "refused 20 35 9",
                "line 5, column 1: U cannot make this message, because U does not have K: give it with 'own U K' before the first step, or have it sent to U before.",
            ),
            (
                b"party U S\ntable T\nown U S\nline U S T[S]'",
                "refused 20 26 9",
                "line 4, column 1: U cannot make this message, because U does not have T[S]': give it with 'own U T[S]'' before the first step, or have it sent to U before.",
            ),
            (
                b"party U S\npublic K\nown U S\nown S K\nline U S K'",
                "refused 20 35 9",
                "line 5, column 1: U cannot make this message, because U does not have K': give it with 'own U K'' before the first step, or have it sent to U before.",
            ),
        ] {
            assert!(rt; is_told(&rt, text, line, sentence)?);
        }
        Ok(())
    }

    // As many steps as a table has, and one more.
    #[test]
    fn many_steps(rt: HostRuntime) -> Result<(), Fail> {
        let mut text = String::new(rt.alloc());
        write!(text, "party A B\nown A B\n")?;
        for _ in 0..65 {
            write!(text, "line A B A\n")?;
        }
        assert!(rt;
            is_told(
                &rt,
                text.as_bytes(),
                "refused 20 722 7",
                "line 67, column 1: this would be the 65th step, and a table has at most 64: leave some out, or split the table into two."
            )?
        );
        Ok(())
    }

    // More names than there is room for, three in a declaration.
    #[test]
    fn many_names(rt: HostRuntime) -> Result<(), Fail> {
        let mut text = String::new(rt.alloc());
        for line in 0..171 {
            write!(text, "number A{line} B{line} C{line}\n")?;
        }
        assert!(rt;
            is_told(
                &rt,
                text.as_bytes(),
                "refused 20 3410 3",
                "line 171, column 1: this line needs a 513th term, and there is room for 512 names and messages with all their parts: write shorter messages, or split the table into two."
            )?
        );
        Ok(())
    }

    // Messages of seven new numbers each, which fill the receiver's script first.
    #[test]
    fn long_scripts(rt: HostRuntime) -> Result<(), Fail> {
        let mut text = String::new(rt.alloc());
        write!(text, "party A B\nown A B\n")?;
        for line in 0..36 {
            write!(
                text,
                "number a{line} b{line} c{line} d{line} e{line} f{line} g{line}\n"
            )?;
            write!(
                text,
                "line A B (a{line} b{line} c{line} d{line} e{line} f{line} g{line})\n"
            )?;
        }
        assert!(rt;
            is_told(
                &rt,
                text.as_bytes(),
                "refused 20 2429 10",
                "line 72, column 1: B would have to work through more than 512 instructions: write shorter messages, or split the table into two."
            )?
        );
        Ok(())
    }

    // A line in a text of as many bytes as are read of one that is too long.
    #[test]
    fn a_long_text(rt: HostRuntime) -> Result<(), Fail> {
        let text = [b'\n'; 32769];
        assert!(rt;
            is_told(
                &rt,
                &text,
                "refused 15 32768",
                "line 32769, column 1: the table is longer than 32768 bytes, and here is the first too many: write a shorter one."
            )?
        );
        Ok(())
    }
}
