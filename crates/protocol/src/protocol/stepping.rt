// Adding a step.
ghost use Rattle.std.specs.Prelude.{◌≡◌};
ghost use Rattle.rules.specs.State.{STEP};
ghost use Rattle.protocol.specs.Delivering.{step_with};
ghost use Rattle.protocol.specs.Laws.{StepLaw};
ghost use Rattle.protocol.specs.Outcome.{Performed, Unaltered, number};
ghost use Rattle.protocol.specs.View.{view_of};

use crate::protocol::Protocol;
use crate::protocol::delivering::Delivered;
use crate::refusal::Refusal;
use crate::step::{Agent, LISTENER, Step};
use terms::TermId;

// The record of a step with these scripts after it.
fn recorded(sender: Agent, receiver: Agent, message: TermId, scripts: &Delivered) -> Step
    ensures { result ≡ step_with sender receiver message scripts.now }
{
    Step {
        sender,
        receiver,
        message,
        sent: scripts.sent.len(),
        received: scripts.received.len(),
        heard: scripts.heard.len(),
    }
}

impl Protocol {
    // A step: judged whole before anything is written.
    pub(super) fn perform_step(
        &mut self,
        sender: Agent,
        receiver: Agent,
        message: TermId,
    ) -> Result<usize, Refusal>
        ensures performed { Performed (view_of self.old) (STEP sender receiver message) (number result) (view_of self.new) }
        ensures unaltered { Unaltered result self.old self.new }
        ensures law { StepLaw (view_of self.old) sender message result }
    {
        let delivery = self.address(sender, receiver, message)?;
        let scripts = self.deliver(sender, receiver, message, delivery)?;
        let number = self.steps.len();
        let _place = self
            .steps
            .push(recorded(sender, receiver, message, &scripts));
        self.scripts.replace(sender, scripts.sent);
        self.scripts.replace(receiver, scripts.received);
        self.scripts.replace(LISTENER, scripts.heard);
        Ok(number)
    }
}
