// The blank protocol, and what reading one answers.
ghost use Rattle.std.specs.Prelude.{◌≡◌, [], ◌∷◌, map, length};
ghost use Rattle.bounded.specs.Items.{items};
ghost use Rattle.parts.specs.Parts.{begin, initial};
ghost use Rattle.rules.specs.State.{blank, nth};
ghost use Rattle.scripts.specs.View.{written};
ghost use Rattle.terms.specs.Listed.{listed};
ghost use Rattle.protocol.specs.Reading.{AgentName, ShowsScript};
ghost use Rattle.protocol.specs.View.{lines_of, steps_of, view_of};

use crate::protocol::Protocol;
use crate::step::{Agent, Step};
use bounded::BoundedVec;
use scripts::Script;
use terms::{TermId, Terms};

// A place for a script or a step that is not there yet.
const UNUSED: Step = Step {
    sender: 0,
    receiver: 0,
    message: 0,
    sent: 0,
    received: 0,
    heard: 0,
};

// The script of the listener alone.
fn one_script() -> BoundedVec<Script, 8>
    ensures { map written (items result) ≡ [] ∷ [] }
{
    let mut scripts = BoundedVec::new(Script::blank());
    let _listener = scripts.push(Script::blank());
    scripts
}

impl Protocol {
    // A protocol with no term, no step, and nobody but the listener, whose script is empty.
    pub fn blank() -> Protocol
        ensures { view_of result ≡ blank }
    {
        Protocol {
            terms: Terms::blank(),
            scripts: one_script(),
            steps: BoundedVec::new(UNUSED),
        }
    }

    // The terms by number.
    pub fn terms(&self) -> &Terms<512>
        ensures { result.now ≡ self.now.terms }
    {
        &self.terms
    }

    // How many agents there are, the listener included.
    pub fn agents(&self) -> usize
        ensures { result ≡ length (lines_of self.now) }
    {
        self.scripts.len()
    }

    // The script of an agent.
    pub fn script(&self, agent: Agent) -> Option<&Script>
        ensures { ShowsScript (lines_of self.now) agent result }
    {
        self.scripts.as_slice().get(agent)
    }

    // How many steps are granted.
    pub fn steps(&self) -> usize
        ensures { result ≡ length (steps_of self.now) }
    {
        self.steps.len()
    }

    // The granted steps, in order.
    pub fn granted_steps(&self) -> &[Step]
        ensures { result.now ≡ steps_of self.now }
    {
        self.steps.as_slice()
    }

    // A granted step.
    pub fn step(&self, number: usize) -> Option<Step>
        ensures { result ≡ nth (steps_of self.now) number }
    {
        self.steps.get(number)
    }

    // How many instructions of an agent's script precede its first step.
    pub fn initial(&self, agent: Agent) -> usize
        ensures { result ≡ initial (view_of self.now) agent }
    {
        self.initial_part(agent)
    }

    // Where an agent's part of a step begins.
    pub fn begin(&self, number: usize, agent: Agent) -> usize
        ensures { result ≡ begin (view_of self.now) number agent }
    {
        self.part_begin(number, agent)
    }

    // The name of a party.
    pub fn name_of(&self, agent: Agent) -> Option<TermId>
        ensures { AgentName (listed self.now.terms) agent result }
    {
        self.agent_name(agent)
    }
}
