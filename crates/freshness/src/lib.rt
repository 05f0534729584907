// Which names are used, and which are fresh in a message, over numbered terms in fixed memory.
//
// What stands within the marked terms is marked in one pass from the highest number down, since
// parts have lower numbers: shared parts cost nothing.

#![tactic(auto)]

mod fresh;
mod given;
mod within;

pub use fresh::fresh_names;
pub use given::mark_given;
pub use within::occurring;

#[cfg(test)]
mod tests {
    use super::*;
    use std::test::Fail;
    use terms::{Form, Kind, Marks, Terms};

    // A number sealed under a private key, with a shared key apart: the number and the public key are fresh, unless shown.
    #[test]
    fn fresh_in_a_sealed_number(rt: HostRuntime) -> Result<(), Fail> {
        let mut terms: Terms<512> = Terms::blank();
        let number = terms.name(Kind::Number, 0)?;
        terms.name(Kind::Shared, 1)?;
        let public = terms.name(Kind::Public, 2)?;
        let private = terms.mate(public)?;
        let message = terms.build(Form::Sealed, number, private)?;
        let mut shown: Marks<512> = Marks::none();
        let first = fresh_names(&terms, &shown, message);
        assert!(rt; first.contains(number) && first.contains(public));
        assert!(rt; !first.contains(1) && !first.contains(private) && !first.contains(message));
        shown.insert(private);
        let second = fresh_names(&terms, &shown, message);
        assert!(rt; second.contains(number) && !second.contains(public));
        Ok(())
    }
}
