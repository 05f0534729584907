// What an agent can build.
ghost use Rattle.rules.specs.State.{CAN};
ghost use Rattle.protocol.specs.Laws.{CanBuildLaw};
ghost use Rattle.protocol.specs.Outcome.{Performed, said};
ghost use Rattle.protocol.specs.View.{view_of};

use crate::protocol::Protocol;
use crate::refusal::Refusal;
use crate::step::Agent;
use terms::TermId;

impl Protocol {
    // Whether an agent can compose a term from what its slots hold.
    pub(super) fn perform_question(&self, agent: Agent, term: TermId) -> Result<bool, Refusal>
        ensures performed { Performed (view_of self.now) (CAN agent term) (said result) (view_of self.now) }
        ensures law { CanBuildLaw (view_of self.now) agent term result }
    {
        let Some(script) = self.script(agent) else {
            return Err(Refusal::Unknown);
        };
        if term >= self.terms.len() {
            return Err(Refusal::Unknown);
        }
        Ok(script.missing(&self.terms, term).is_none())
    }
}
