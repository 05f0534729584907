// Composing a term from what the slots hold.
ghost use Rattle.std.specs.Prelude.{◌≡◌, is_ok, take, if◌then◌else◌};
ghost use Rattle.terms.specs.Listed.{listed};
ghost use Rattle.scripts.specs.Composing.{Grows, HeldMarks, HoldsTerms, IsTerm, Lacks, NamesTerms, Parts, Puts};
ghost use Rattle.scripts.specs.View.{written};

use crate::instruction::{ScriptError, Slot, builder};
use crate::script::Script;
use terms::{Form, Marks, TermId, TermNode, Terms};

// The form of a two-part term and its parts, which have lower numbers.
pub(super) fn parts(terms: &Terms<512>, term: TermId) -> Option<(Form, TermId, TermId)>
    ensures { Parts (listed terms.now) term result }
{
    match terms.get(term)? {
        TermNode::Built(form, a, b) => Some((form, a, b)),
        TermNode::Name(_, _) | TermNode::Mate(_) => None,
    }
}

impl Script {
    // Which terms the slots hold.
    pub fn held(&self) -> Marks<512>
        ensures { HeldMarks (written self.now) result }
    {
        let mut marks = Marks::none();
        for line in self.lines() {
            if let Some(term) = line.holds {
                marks.insert(term);
            }
        }
        marks
    }

    // Goes into the parts in order. What was written before stays in front, whatever the answer.
    pub(super) fn put(&mut self, terms: &Terms<512>, term: TermId) -> Result<Slot, ScriptError>
        ensures grows { Grows self.old self.new }
        ensures puts { let ts = listed terms.now in IsTerm ts term → HoldsTerms ts self.old → Puts ts self.old term result self.new }
        ensures names { let ts = listed terms.now in NamesTerms ts self.old → NamesTerms ts self.new }
    {
        if let Some(slot) = self.slot_of(term) {
            return Ok(slot);
        }
        let Some((form, a, b)) = parts(terms, term) else {
            return Err(ScriptError::Missing(term));
        };
        let first = self.put(terms, a)?;
        let second = self.put(terms, b)?;
        self.push(builder(form, first, second), Some(term))
    }

    // The first name or mate for want of which a term cannot be composed.
    pub fn missing(&self, terms: &Terms<512>, term: TermId) -> Option<TermId>
        ensures { let ts = listed terms.now in IsTerm ts term → HoldsTerms ts self.now → Lacks ts self.now term result }
    {
        terms.first_missing(&self.held(), term)
    }

    // Takes back what was written after the first n instructions, if the writing was refused.
    pub(super) fn cut_if_refused<T>(
        &mut self,
        n: usize,
        done: Result<T, ScriptError>,
    ) -> Result<T, ScriptError>
        ensures same { result ≡ done }
        ensures cut { written self.new ≡ (if is_ok done then written self.old else take n (written self.old)) }
    {
        if done.is_err() {
            self.cut(n);
        }
        done
    }
}
