// Calls as values.
ghost use Rattle.protocol.specs.Outcome.{Performed, call_of};
ghost use Rattle.protocol.specs.View.{view_of};

use crate::call::{Answer, Call, Reply};
use crate::protocol::Protocol;

impl Protocol {
    // Makes a call.
    pub fn call(&mut self, call: Call) -> Answer
        ensures { Performed (view_of self.old) (call_of call) result (view_of self.new) }
    {
        match call {
            Call::Name(kind) => self.name(kind).map(Reply::Number),
            Call::Build(form, a, b) => self.build(form, a, b).map(Reply::Number),
            Call::Know(agent, term) => self.add_knowledge(agent, term).map(|()| Reply::Done),
            Call::Step(sender, receiver, message) => self
                .add_step(sender, receiver, message)
                .map(Reply::Number),
            Call::CanBuild(agent, term) => self.can_build(agent, term).map(Reply::Said),
        }
    }
}
