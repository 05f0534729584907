// Saturating a script: taking apart what its slots hold until nothing new comes of it.
ghost use Rattle.std.specs.Prelude.{◌≡◌, false, length, Some, slice_index_or};
ghost use Rattle.rules.specs.Saturate.{saturate, take_apart, take_held, take_term};
ghost use Rattle.rules.specs.Script.{Script as RuleScript};
ghost use Rattle.terms.specs.Listed.{listed};
ghost use Rattle.terms.specs.Tree.{tree};
ghost use Rattle.scripts.specs.Composing.{Below, Grows, IsTerm, NamesTerms, view};
ghost use Rattle.scripts.specs.Lines.{held_of};
ghost use Rattle.scripts.specs.Writing.{ContentTaken, HeldIn, Judged, Longer, Takes, TakingKnown, Writes, half_taken, taken};

use crate::instruction::{Instruction, ScriptError, Slot, Taking};
use crate::script::Script;
use crate::script::compose::parts;
use terms::{Form, Marks, TermId, Terms};

// The half of the pair at a slot that cannot be composed, the left one first.
fn missing_half(judged: &Marks<512>, slot: Slot, a: TermId, b: TermId) -> Option<Taking>
    ensures { result ≡ half_taken slot a b (slice_index_or judged.now a false) (slice_index_or judged.now b false) }
{
    if !judged.contains(a) {
        Some(Taking::LeftHalf(slot, a))
    } else if !judged.contains(b) {
        Some(Taking::RightHalf(slot, b))
    } else {
        None
    }
}

// The content of the sealed term at a slot, where it cannot be composed and its opener can.
fn missing_content(
    terms: &Terms<512>,
    judged: &Marks<512>,
    slot: Slot,
    content: TermId,
    key: TermId,
) -> Option<Taking>
    ensures { ContentTaken (listed terms.now) judged.now slot content key result }
{
    if judged.contains(content) {
        return None;
    }
    let opener = terms.opener(key)?;
    let opens = judged.contains(opener);
    opens.then_some(Taking::Content(slot, opener, content))
}

// What is taken from a term at a slot.
fn take_term(terms: &Terms<512>, judged: &Marks<512>, slot: Slot, term: TermId) -> Option<Taking>
    ensures { let ts = listed terms.now in (v : RuleScript) → IsTerm ts term → HeldIn ts v → Judged ts v judged.now → Takes ts v (take_term v slot (tree ts term)) result }
{
    match parts(terms, term)? {
        (Form::Pair, a, b) => missing_half(judged, slot, a, b),
        (Form::Sealed, content, key) => missing_content(terms, judged, slot, content, key),
        (Form::Digest, _, _) => None,
        (Form::Entry, _, _) => None,
    }
}

// What is taken from what a slot holds.
fn take_held(
    terms: &Terms<512>,
    judged: &Marks<512>,
    slot: Slot,
    holds: Option<TermId>,
) -> Option<Taking>
    ensures { let ts = listed terms.now in (v : RuleScript) → Below (length ts) holds → HeldIn ts v → Judged ts v judged.now → Takes ts v (take_held v slot (held_of (tree ts) holds)) result }
{
    take_term(terms, judged, slot, holds?)
}

impl Script {
    // Which terms can be composed from what the slots hold.
    fn judged(&self, terms: &Terms<512>) -> Marks<512>
        ensures { let ts = listed terms.now in NamesTerms ts self.now → Judged ts (view ts self.now) result }
    {
        terms.composable(&self.held())
    }

    // What saturating takes next, at the lowest slot where there is something.
    pub(super) fn next_taking(&self, terms: &Terms<512>) -> Option<Taking>
        ensures { let ts = listed terms.now in NamesTerms ts self.now → Takes ts (view ts self.now) (take_apart (view ts self.now)) result }
    {
        let judged = self.judged(terms);
        self.lines()
            .iter()
            .enumerate()
            .find_map(|(slot, line)| take_held(terms, &judged, slot, line.holds))
    }

    // Composes the opener of a sealed term at a slot, and opens it there.
    fn open(
        &mut self,
        terms: &Terms<512>,
        slot: Slot,
        opener: TermId,
        content: TermId,
    ) -> Result<Slot, ScriptError>
        ensures grows { Grows self.old self.new }
        ensures longer { Longer self.old result self.new }
        ensures opens { let ts = listed terms.now in IsTerm ts opener → IsTerm ts content → NamesTerms ts self.old → (w : RuleScript) → taken ts (view ts self.old) (Taking.Content slot opener content) ≡ Some w → Writes ts w result self.new }
    {
        let with = self.put(terms, opener)?;
        self.push(Instruction::Open(slot, with), Some(content))
    }

    // Writes what is taken.
    pub(super) fn take(&mut self, terms: &Terms<512>, taking: Taking) -> Result<Slot, ScriptError>
        ensures grows { Grows self.old self.new }
        ensures longer { Longer self.old result self.new }
        ensures takes { let ts = listed terms.now in TakingKnown (length ts) taking → NamesTerms ts self.old → (w : RuleScript) → taken ts (view ts self.old) taking ≡ Some w → Writes ts w result self.new }
    {
        match taking {
            Taking::LeftHalf(slot, half) => self.push(Instruction::Left(slot), Some(half)),
            Taking::RightHalf(slot, half) => self.push(Instruction::Right(slot), Some(half)),
            Taking::Content(slot, opener, content) => self.open(terms, slot, opener, content),
        }
    }

    // Takes apart until nothing is left to take. What was written before stays in front, whatever the answer.
    pub(super) fn take_all(&mut self, terms: &Terms<512>) -> Result<(), ScriptError>
        ensures grows { Grows self.old self.new }
        ensures takes { let ts = listed terms.now in NamesTerms ts self.old → Writes ts (saturate (view ts self.old)) result self.new }
    {
        while let Some(taking) = self.next_taking(terms) {
            self.take(terms, taking)?;
        }
        Ok(())
    }
}
