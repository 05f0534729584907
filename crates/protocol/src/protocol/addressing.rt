// The tests of a step before its message is looked at.
ghost use Rattle.protocol.specs.Stepping.{Addresses};

use crate::protocol::Protocol;
use crate::refusal::Refusal;
use crate::step::{Agent, Delivery};
use terms::TermId;

impl Protocol {
    // Two different parties, a term, room for a step, and the receiver's name in a slot of the sender.
    pub(super) fn address(
        &self,
        sender: Agent,
        receiver: Agent,
        message: TermId,
    ) -> Result<Delivery, Refusal>
        ensures { Addresses self.now sender receiver message result }
    {
        let Some(script) = self.script(sender) else {
            return Err(Refusal::Unknown);
        };
        if receiver >= self.agents() || message >= self.terms.len() {
            return Err(Refusal::Unknown);
        }
        if sender == receiver {
            return Err(Refusal::NoTwoParties);
        }
        let Some(from) = self.name_of(sender) else {
            return Err(Refusal::NoTwoParties);
        };
        let Some(to) = self.name_of(receiver) else {
            return Err(Refusal::NoTwoParties);
        };
        if self.steps() >= 64 {
            return Err(Refusal::LastStep);
        }
        match script.slot_of(to) {
            Some(address) => Ok(Delivery { from, to, address }),
            None => Err(Refusal::NoAddress),
        }
    }
}
