// Scripts as text.
//
// An agent's script is written to the front of a lent output, one line for each instruction: the agent's number, the instruction's
// number, its word and its operands. What is written is exactly that, and what stands behind it is as before; where it does not fit,
// nothing is written.

#![tactic(auto)]

mod laws;
mod refusal;
mod script;
mod text;
mod words;

pub use laws::{listings_tell_scripts_apart, numbers_have_one_decimal};
pub use refusal::ListingError;
pub use script::list;

#[cfg(test)]
mod tests {
    use super::*;
    use protocol::{Protocol, Refusal};
    use std::test::Fail;

    // Parties U (0) and S (1), a number J (2); U starts with S's name and sends S the pair (3) of U and J.
    fn example() -> Result<Protocol, Refusal> {
        let mut protocol = Protocol::blank();
        let u = protocol.name(0)?;
        let s = protocol.name(0)?;
        let j = protocol.name(1)?;
        let pair = protocol.build(0, u, j)?;
        protocol.add_knowledge(1, s)?;
        protocol.add_step(1, 2, pair)?;
        Ok(protocol)
    }

    // Whether an agent's listing is a text, with the output behind it as it was.
    fn is_listing(protocol: &Protocol, agent: usize, text: &[u8]) -> bool {
        let mut output = [7; 100];
        list(protocol, agent, &mut output) == Ok(text.len())
            && output.starts_with(text)
            && output.iter().skip(text.len()).all(|byte| *byte == 7)
    }

    #[test]
    fn one_step_between_two_parties(rt: HostRuntime) -> Result<(), Fail> {
        let protocol = example()?;
        let listener = b"0 0 FROM 0\n0 1 TO 1\n0 2 RECV 3\n0 3 RIGHT 2\n";
        assert!(rt; is_listing(&protocol, 0, listener));
        let sender = b"1 0 GIVEN 0\n1 1 GIVEN 1\n1 2 FRESH 2\n1 3 JOIN 0 2\n1 4 SEND 3 1\n";
        assert!(rt; is_listing(&protocol, 1, sender));
        let receiver =
            b"2 0 GIVEN 1\n2 1 FROM 0\n2 2 RECV 3\n2 3 LEFT 2\n2 4 SAME 3 1\n2 5 RIGHT 2\n";
        assert!(rt; is_listing(&protocol, 2, receiver));
        Ok(())
    }

    // The listener's listing has 43 bytes.
    #[test]
    fn refusals_leave_the_output(rt: HostRuntime) -> Result<(), Fail> {
        let protocol = example()?;
        let mut output = [7; 43];
        let refused = list(&protocol, 0, &mut output[..42]);
        assert!(rt; refused == Err(ListingError::Short) && ListingError::Short.number() == 21);
        let refused = list(&protocol, 3, &mut output);
        assert!(rt; refused == Err(ListingError::Unknown) && ListingError::Unknown.number() == 1);
        assert!(rt; output.iter().all(|byte| *byte == 7));
        assert!(rt; list(&protocol, 0, &mut output) == Ok(43));
        Ok(())
    }
}
