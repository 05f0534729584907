// The reader of tables as text.
//
// A text is read line by line: each line is checked, and then its calls are made. docs/TEXT.md has the grammar and the calls. A text is
// granted exactly if it is lines of the grammar whose calls the protocol grants, and the protocol is then what these calls make of a blank
// one; otherwise the first line that is wrong is refused. A step line is refused as unmakeable exactly if its sender cannot build what it
// writes. Each text has one answer.

#![tactic(auto)]

mod calls;
mod fault;
mod key;
mod line;
mod pairing;
mod table;
mod term;
mod theorems;
mod token;

pub use fault::{TextFault, TextLineFault};
pub use table::{read_lines, read_table};
pub use theorems::{declared_names_stand, made_terms_are_those_written, reads_are_determined};

#[cfg(test)]
mod tests {
    use super::*;
    use protocol::Protocol;
    use std::test::Fail;

    fn answer(text: &[u8]) -> (usize, usize) {
        let mut protocol = Protocol::blank();
        match read_table(&mut protocol, text) {
            Ok(steps) => (0, steps),
            Err(fault) => (fault.number(), fault.place()),
        }
    }

    #[test]
    fn tables(rt: HostRuntime) -> Result<(), Fail> {
        assert!(rt; answer(b"") == (0, 0));
        assert!(rt; answer(b"party U S\nnumber J\nown U S\nline U S (U J)\n") == (0, 1));
        assert!(rt; answer(b"party U S\nnumber J\n line U S (U J)") == (20, 19));
        assert!(rt; answer(b"party U S\nown U X $") == (17, 16));
        assert!(rt; answer(b"party A\nparty A") == (18, 14));
        assert!(rt; answer(b"party A B C D E F G H") == (20, 0));
        assert!(rt; answer(b"party A\nfunction F\nown A F<(A A A)>") == (0, 0));
        assert!(rt; answer(b"party A\npublic K\nown A {A}K'") == (0, 0));
        assert!(rt; answer(b"party A\ntable T\nown A {(A A)}T[A]'") == (0, 0));
        assert!(rt; answer(b"party A\nown A {A}A") == (20, 8));
        Ok(())
    }

    // `own A (A A A ..)` with 16,000 parts makes 15,999 pairs, of which there is no room for most.
    #[test]
    fn a_tuple_of_16000_parts(rt: HostRuntime) -> Result<(), Fail> {
        let mut text = [b' '; 32768];
        let head = b"party A\nown A (";
        text[..head.len()].copy_from_slice(head);
        for i in 0..16000 {
            text[head.len() + 2 * i] = b'A';
        }
        text[head.len() + 32000] = b')';
        assert!(rt; answer(&text) == (20, 8));
        Ok(())
    }
}
