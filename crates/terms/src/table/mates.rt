// Mates of keys, and what opens a sealed term.
ghost use Rattle.terms.specs.Outcome.{Opens};
ghost use Rattle.terms.specs.Listed.{listed, Mated};

use crate::node::{MateCase, TermError, TermId, TermNode, mate_case};
use crate::table::Terms;

impl<const N: usize> Terms<N> {
    // The number of a key's mate.
    pub fn mate(&mut self, key: TermId) -> Result<TermId, TermError>
        ensures { Mated self.old key result self.new }
    {
        match mate_case(self.part(key)?).ok_or(TermError::WrongKind)? {
            MateCase::Itself => Ok(key),
            MateCase::Inside(inner) => Ok(inner),
            MateCase::Apart => self.insert(TermNode::Mate(key)),
        }
    }

    // The number of what opens the terms that a key seals, if it is a term.
    pub fn opener(&self, key: TermId) -> Option<TermId>
        ensures { Opens (listed self.now) key result }
    {
        match mate_case(self.get(key)?)? {
            MateCase::Itself => Some(key),
            MateCase::Inside(inner) => Some(inner),
            MateCase::Apart => self.find(TermNode::Mate(key)),
        }
    }
}
