// Adding terms. A term that is there is answered with its number, also when the table is full.
ghost use Rattle.terms.specs.Outcome.{ReadsPart, Known, Proper, Absent, Checks};
ghost use Rattle.terms.specs.Listed.{listed, Inserted};
ghost use Rattle.terms.specs.declared.node.TermNode.TheVariants.{Name, Built};

use crate::node::{Form, Kind, TermError, TermId, TermNode, is_asymmetric, parts_fit};
use crate::table::Terms;

impl<const N: usize> Terms<N> {
    // The record of a part, which has to be a term.
    pub(super) fn part(&self, id: TermId) -> Result<TermNode, TermError>
        ensures { ReadsPart (listed self.now) id result }
    {
        self.get(id).ok_or(TermError::Unknown)
    }

    // The test of a record's parts.
    fn check(&self, node: TermNode) -> Result<(), TermError>
        ensures { Checks N (listed self.now) node result }
    {
        let fits = match node {
            TermNode::Name(_, _) => true,
            TermNode::Built(form, a, b) => parts_fit(form, self.part(a)?, self.part(b)?),
            TermNode::Mate(key) => is_asymmetric(self.part(key)?),
        };
        fits.then_some(()).ok_or(TermError::WrongKind)
    }

    // Writes a new record under the next number.
    fn push(&mut self, node: TermNode) -> Result<TermId, TermError>
        requires known { Known (listed self.old) node }
        requires proper { Proper (listed self.old) node }
        requires absent { Absent (listed self.old) node }
        ensures { Inserted self.old node result self.new }
    {
        self.nodes.push(node).map_err(|_| TermError::Full)
    }

    // The number of a record, which is added if it is new.
    pub(super) fn insert(&mut self, node: TermNode) -> Result<TermId, TermError>
        ensures { Inserted self.old node result self.new }
    {
        self.check(node)?;
        match self.find(node) {
            Some(id) => Ok(id),
            None => self.push(node),
        }
    }

    // The number of a name.
    pub fn name(&mut self, kind: Kind, id: usize) -> Result<TermId, TermError>
        ensures { Inserted self.old (Name kind id) result self.new }
    {
        self.insert(TermNode::Name(kind, id))
    }

    // The number of a two-part term.
    pub fn build(&mut self, form: Form, a: TermId, b: TermId) -> Result<TermId, TermError>
        ensures { Inserted self.old (Built form a b) result self.new }
    {
        self.insert(TermNode::Built(form, a, b))
    }
}
