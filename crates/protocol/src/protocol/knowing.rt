// Initial knowledge.
ghost use Rattle.rules.specs.State.{KNOW};
ghost use Rattle.protocol.specs.Knowing.{Learns};
ghost use Rattle.protocol.specs.Outcome.{Performed, Unaltered, done};
ghost use Rattle.protocol.specs.View.{view_of};

use crate::protocol::Protocol;
use crate::refusal::Refusal;
use crate::step::Agent;
use effects::know;
use scripts::Script;
use terms::TermId;

impl Protocol {
    // An agent's script after it is given a term.
    fn learned(&self, agent: Agent, term: TermId) -> Result<Script, Refusal>
        ensures { Learns self.now agent term result }
    {
        let Some(script) = self.script(agent) else {
            return Err(Refusal::Unknown);
        };
        if term >= self.terms.len() {
            return Err(Refusal::Unknown);
        }
        if self.steps() > 0 {
            return Err(Refusal::TooLate);
        }
        know(script, &self.terms, term).map_err(|_| Refusal::ScriptFull(agent))
    }

    // A term that an agent has before the first step.
    pub(super) fn perform_knowledge(&mut self, agent: Agent, term: TermId) -> Result<(), Refusal>
        ensures performed { Performed (view_of self.old) (KNOW agent term) (done result) (view_of self.new) }
        ensures unaltered { Unaltered result self.old self.new }
    {
        let script = self.learned(agent, term)?;
        self.scripts.replace(agent, script);
        Ok(())
    }
}
