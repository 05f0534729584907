// What initial knowledge and a step write into one agent's script, exactly by the rules.
//
// Each function answers the script after the effect, so that a refusal leaves nothing behind.

#![tactic(auto)]

mod fresh;
mod knowledge;
mod listener;
mod missing;
mod receiver;
mod sender;

pub use knowledge::know;
pub use listener::overhear;
pub use receiver::receive;
pub use sender::send;

#[cfg(test)]
mod tests {
    use super::*;
    use scripts::{Instruction, Script};
    use std::test::Fail;
    use terms::{Form, Kind, Marks, Terms};

    // Whether a script has exactly these instructions.
    fn is_script(script: &Script, expected: &[Instruction]) -> bool {
        let lines = script.lines();
        lines.len() == expected.len() && lines.iter().zip(expected).all(|(line, op)| line.op == *op)
    }

    // Parties U (0) and S (1), a number J (2); U starts with S's name and sends S the pair (3) of U and J.
    #[test]
    fn one_step_between_two_parties(rt: HostRuntime) -> Result<(), Fail> {
        let mut terms: Terms<512> = Terms::blank();
        let u = terms.name(Kind::Party, 0)?;
        let s = terms.name(Kind::Party, 1)?;
        let j = terms.name(Kind::Number, 2)?;
        let pair = terms.build(Form::Pair, u, j)?;
        let mut fresh = Marks::none();
        fresh.insert(j);
        let start = know(&know(&Script::blank(), &terms, u)?, &terms, s)?;
        let sender = send(&start, &terms, &fresh, pair, 1)?;
        assert!(rt;
            is_script(
                &sender,
                &[
                    Instruction::Given(0),
                    Instruction::Given(1),
                    Instruction::Fresh(2),
                    Instruction::Join(0, 2),
                    Instruction::Send(3, 1)
                ]
            )
        );
        let receiver = receive(&know(&Script::blank(), &terms, s)?, &terms, u, pair)?;
        assert!(rt;
            is_script(
                &receiver,
                &[
                    Instruction::Given(1),
                    Instruction::From(0),
                    Instruction::Recv(3),
                    Instruction::Left(2),
                    Instruction::Same(3, 1),
                    Instruction::Right(2)
                ]
            )
        );
        let listener = overhear(&Script::blank(), &terms, u, s, pair)?;
        assert!(rt;
            is_script(
                &listener,
                &[
                    Instruction::From(0),
                    Instruction::To(1),
                    Instruction::Recv(3),
                    Instruction::Right(2)
                ]
            )
        );
        Ok(())
    }
}
