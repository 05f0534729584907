// Walking a term that an instruction brings in: comparing what could be composed, taking apart the rest.
ghost use Rattle.std.specs.Prelude.{◌≡◌, length, Some};
ghost use Rattle.deduction.specs.Term.{Key};
ghost use Rattle.rules.specs.Compose.{Composed, compose};
ghost use Rattle.rules.specs.Walk.{compared, walk};
ghost use Rattle.terms.specs.Listed.{listed};
ghost use Rattle.terms.specs.Tree.{tree};
ghost use Rattle.scripts.specs.Composing.{Grows, HoldsTerms, IsTerm, Lacks, NamesTerms, OpNames, view};
ghost use Rattle.scripts.specs.Lines.{op_of};
ghost use Rattle.scripts.specs.Writing.{Unlocks, Writes, brought};

use crate::instruction::{Instruction, ScriptError, Slot};
use crate::script::Script;
use crate::script::compose::parts;
use terms::{Form, TermId, Terms};

impl Script {
    // Writes the instruction, composes the term that it brings in, and compares the two.
    fn bring_known(
        &mut self,
        terms: &Terms<512>,
        op: Instruction,
        term: TermId,
    ) -> Result<(), ScriptError>
        ensures grows { Grows self.old self.new }
        ensures compares { let ts = listed terms.now in IsTerm ts term → NamesTerms ts self.old → OpNames ts op → (c : Composed) → compose (brought (view ts self.old) (op_of (tree ts) op)) (tree ts term) ≡ Some c → Writes ts (compared (length (view ts self.old)) c) result self.new }
    {
        let slot = self.push(op, None)?;
        let made = self.put(terms, term)?;
        self.push(Instruction::Same(slot, made), None)?;
        Ok(())
    }

    // What is missing for an opener; whether a slot holds it is not asked.
    fn missing_opener(&self, terms: &Terms<512>, opener: TermId) -> Option<TermId>
        ensures { let ts = listed terms.now in IsTerm ts opener → HoldsTerms ts self.now → Lacks ts self.now opener result }
    {
        self.missing(terms, opener)
    }

    // Composes what opens the terms that a key seals, if it can be composed.
    fn unlock(&mut self, terms: &Terms<512>, key: TermId) -> Result<Option<Slot>, ScriptError>
        ensures grows { Grows self.old self.new }
        ensures unlocks { let ts = listed terms.now in IsTerm ts key → Key (tree ts key) → NamesTerms ts self.old → Unlocks ts self.old key result self.new }
    {
        let Some(opener) = terms.opener(key) else {
            return Ok(None);
        };
        if self.missing_opener(terms, opener).is_some() {
            return Ok(None);
        }
        let slot = self.put(terms, opener)?;
        Ok(Some(slot))
    }

    // The walk, which calls itself on the halves of a pair and on the content of a sealed term, all of lower numbers. What was
    // written before stays in front, whatever the answer.
    pub(super) fn bring(
        &mut self,
        terms: &Terms<512>,
        op: Instruction,
        term: TermId,
    ) -> Result<(), ScriptError>
        ensures grows { Grows self.old self.new }
        ensures walks { let ts = listed terms.now in IsTerm ts term → NamesTerms ts self.old → OpNames ts op → Writes ts (walk (view ts self.old) (op_of (tree ts) op) (tree ts term)) result self.new }
    {
        if self.missing(terms, term).is_none() {
            return self.bring_known(terms, op, term);
        }
        let slot = self.push(op, Some(term))?;
        let Some((form, a, b)) = parts(terms, term) else {
            return Ok(());
        };
        match form {
            Form::Pair => {
                self.bring(terms, Instruction::Left(slot), a)?;
                self.bring(terms, Instruction::Right(slot), b)
            }
            Form::Sealed => match self.unlock(terms, b)? {
                Some(opener) => self.bring(terms, Instruction::Open(slot, opener), a),
                None => Ok(()),
            },
            Form::Digest => Ok(()),
            Form::Entry => Ok(()),
        }
    }
}
