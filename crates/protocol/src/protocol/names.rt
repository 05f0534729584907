// The names of the parties.
ghost use Rattle.std.specs.Prelude.{◌≡◌};
ghost use Rattle.terms.specs.Listed.{listed};
ghost use Rattle.protocol.specs.Reading.{AgentName, PartyName, is_party};

use crate::protocol::Protocol;
use crate::step::{Agent, LISTENER};
use terms::{Kind, TermId, TermNode, Terms};

// Whether a term is a party's name.
fn is_party(node: Option<TermNode>) -> bool
    ensures { result ≡ is_party node }
{
    matches!(node, Some(TermNode::Name(Kind::Party, _)))
}

// The number of the party name before which there are as many others.
fn nth_party(terms: &Terms<512>, before: usize) -> Option<TermId>
    ensures { PartyName (listed terms.now) before result }
{
    let mut left = before;
    for id in 0..terms.len() {
        if is_party(terms.get(id)) {
            if left == 0 {
                return Some(id);
            }
            left -= 1;
        }
    }
    None
}

impl Protocol {
    // The number of an agent's name; the listener has none.
    pub(super) fn agent_name(&self, agent: Agent) -> Option<TermId>
        ensures { AgentName (listed self.now.terms) agent result }
    {
        if agent == LISTENER {
            None
        } else {
            nth_party(&self.terms, agent - 1)
        }
    }
}
