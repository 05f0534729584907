// Where the parts of an agent's script begin.
ghost use Rattle.std.specs.Prelude.{◌≡◌, ◌<◌};
ghost use Rattle.parts.specs.Parts.{begin, initial};
ghost use Rattle.scripts.specs.View.{written};
ghost use Rattle.protocol.specs.Reading.{end_of, opening_of, opens_by};
ghost use Rattle.protocol.specs.View.{view_of};

use crate::protocol::Protocol;
use crate::step::{Agent, Step};
use scripts::{Instruction, Script};

// How long the opening of a script is with one instruction more in front.
fn opens(op: Instruction, rest: usize) -> usize
    requires { rest < 512 }
    ensures { result ≡ opens_by op rest }
{
    match op {
        Instruction::Given(_)
        | Instruction::Left(_)
        | Instruction::Right(_)
        | Instruction::Open(_, _) => rest + 1,
        Instruction::Join(_, _)
        | Instruction::Seal(_, _)
        | Instruction::Digest(_, _)
        | Instruction::Entry(_, _)
            if rest > 0 => rest + 1,
        _ => 0,
    }
}

// How many instructions the opening of a script has, from its end to its front.
fn opening(script: &Script) -> usize
    ensures { result ≡ opening_of (written script.now) }
{
    let mut opening = 0;
    for line in script.lines().iter().rev() {
        opening = opens(line.op, opening);
    }
    opening
}

// How far an agent's script is done after a step.
fn end_of(step: Step, agent: Agent, before: usize) -> usize
    ensures { result ≡ end_of step agent before }
{
    if step.sender == agent {
        step.sent
    } else if step.receiver == agent {
        step.received
    } else {
        before
    }
}

impl Protocol {
    // How many instructions of an agent's script precede its first step.
    pub(super) fn initial_part(&self, agent: Agent) -> usize
        ensures { result ≡ initial (view_of self.now) agent }
    {
        match self.script(agent) {
            Some(script) => opening(script),
            None => 0,
        }
    }

    // Where an agent's part of a step begins: how far its script is done by the steps before.
    pub(super) fn part_begin(&self, number: usize, agent: Agent) -> usize
        ensures { result ≡ begin (view_of self.now) number agent }
    {
        let steps = self.steps.as_slice();
        let mut done = self.initial_part(agent);
        for step in &steps[..number.min(steps.len())] {
            done = end_of(*step, agent, done);
        }
        done
    }
}
