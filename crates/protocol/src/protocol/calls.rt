// The calls that add to a protocol and ask of it.
ghost use Rattle.rules.specs.State.{BUILD, CAN, KNOW, NAME, STEP};
ghost use Rattle.protocol.specs.Laws.{CanBuildLaw, StepLaw};
ghost use Rattle.protocol.specs.Outcome.{Performed, Unaltered, done, number, said};
ghost use Rattle.protocol.specs.View.{view_of};

use crate::protocol::Protocol;
use crate::refusal::Refusal;
use crate::step::Agent;
use terms::TermId;

impl Protocol {
    // A new name of the kind; a public key comes with its mate, and a party opens the next agent.
    pub fn name(&mut self, kind: usize) -> Result<TermId, Refusal>
        ensures performed { Performed (view_of self.old) (NAME kind) (number result) (view_of self.new) }
        ensures unaltered { Unaltered result self.old self.new }
    {
        self.perform_name(kind)
    }

    // The number of a term, which is added if it is new.
    pub fn build(&mut self, form: usize, a: TermId, b: TermId) -> Result<TermId, Refusal>
        ensures performed { Performed (view_of self.old) (BUILD form a b) (number result) (view_of self.new) }
        ensures unaltered { Unaltered result self.old self.new }
    {
        self.perform_build(form, a, b)
    }

    // A term that an agent has before the first step.
    pub fn add_knowledge(&mut self, agent: Agent, term: TermId) -> Result<(), Refusal>
        ensures performed { Performed (view_of self.old) (KNOW agent term) (done result) (view_of self.new) }
        ensures unaltered { Unaltered result self.old self.new }
    {
        self.perform_knowledge(agent, term)
    }

    // A message from a sender to a receiver; answers the step's number.
    pub fn add_step(
        &mut self,
        sender: Agent,
        receiver: Agent,
        message: TermId,
    ) -> Result<usize, Refusal>
        ensures performed { Performed (view_of self.old) (STEP sender receiver message) (number result) (view_of self.new) }
        ensures unaltered { Unaltered result self.old self.new }
        ensures law { StepLaw (view_of self.old) sender message result }
    {
        self.perform_step(sender, receiver, message)
    }

    // Whether an agent can build a term.
    pub fn can_build(&self, agent: Agent, term: TermId) -> Result<bool, Refusal>
        ensures performed { Performed (view_of self.now) (CAN agent term) (said result) (view_of self.now) }
        ensures law { CanBuildLaw (view_of self.now) agent term result }
    {
        self.perform_question(agent, term)
    }
}
