// The three rules that write into a script. A refusal writes nothing.
ghost use Rattle.rules.specs.Saturate.{saturate};
ghost use Rattle.rules.specs.Walk.{walk};
ghost use Rattle.terms.specs.Listed.{listed};
ghost use Rattle.terms.specs.Tree.{tree};
ghost use Rattle.scripts.specs.Composing.{Composes, HoldsTerms, IsTerm, NamesTerms, OpNames, view};
ghost use Rattle.scripts.specs.Lines.{op_of};
ghost use Rattle.scripts.specs.Writing.{Wrote};

use crate::instruction::{Instruction, ScriptError, Slot};
use crate::script::Script;
use terms::{TermId, Terms};

impl Script {
    // Composes a term: the slot that holds it, or its parts in order and then the whole. A script that names only
    // terms of the table does so afterwards too.
    pub fn compose(&mut self, terms: &Terms<512>, term: TermId) -> Result<Slot, ScriptError>
        ensures composes { let ts = listed terms.now in IsTerm ts term → HoldsTerms ts self.old → Composes ts self.old term result self.new }
        ensures names { let ts = listed terms.now in NamesTerms ts self.old → NamesTerms ts self.new }
    {
        if let Some(lacking) = self.missing(terms, term) {
            return Err(ScriptError::Missing(lacking));
        }
        let len = self.len();
        let done = self.put(terms, term);
        self.cut_if_refused(len, done)
    }

    // Saturates the script: again and again at the lowest slot where something can be taken.
    pub fn saturate(&mut self, terms: &Terms<512>) -> Result<(), ScriptError>
        ensures { let ts = listed terms.now in NamesTerms ts self.old → Wrote ts self.old (saturate (view ts self.old)) result self.new }
    {
        let len = self.len();
        let done = self.take_all(terms);
        self.cut_if_refused(len, done)
    }

    // Walks a term that an instruction brings in.
    pub fn walk(
        &mut self,
        terms: &Terms<512>,
        op: Instruction,
        term: TermId,
    ) -> Result<(), ScriptError>
        ensures { let ts = listed terms.now in IsTerm ts term → NamesTerms ts self.old → OpNames ts op → Wrote ts self.old (walk (view ts self.old) (op_of (tree ts) op) (tree ts term)) result self.new }
    {
        let len = self.len();
        let done = self.bring(terms, op, term);
        self.cut_if_refused(len, done)
    }
}
