// The names that a text has declared, in fixed memory: at most 512, each with its kind and the number of its term.
//
// A name borrows its bytes from the text, so that nothing is copied. What a word stands for is what it was declared as first.

#![tactic(auto)]

mod names;

pub use names::{Named, Names};

#[cfg(test)]
mod tests {
    use super::*;
    use std::test::Fail;
    use terms::Kind;

    #[test]
    fn declared_names_are_found(rt: HostRuntime) -> Result<(), Fail> {
        let text = b"party U UU";
        let mut names = Names::new();
        let party = Named {
            kind: Kind::Party,
            term: 0,
        };
        let other = Named {
            kind: Kind::Party,
            term: 1,
        };
        assert!(rt; names.get(&text[6..7]) == None);
        assert!(rt; names.declare(&text[6..7], party) == Ok(()));
        assert!(rt; names.declare(&text[8..10], other) == Ok(()));
        assert!(rt; names.get(b"U") == Some(party));
        assert!(rt; names.get(b"UU") == Some(other));
        assert!(rt; names.get(b"u") == None);
        Ok(())
    }
}
