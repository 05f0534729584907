// Writing instructions, and looking for slots.
ghost use Rattle.std.specs.Prelude.{◌≡◌, ◌≤◌, [], length, take};
ghost use Rattle.rules.specs.State.{nth};
ghost use Rattle.scripts.specs.Lines.{slot_of};
ghost use Rattle.scripts.specs.View.{written, Pushed};

use crate::instruction::{Instruction, Line, ScriptError, Slot};
use crate::script::Script;
use bounded::BoundedVec;
use terms::TermId;

impl Script {
    // A script with no instruction.
    pub fn blank() -> Self
        ensures { written result ≡ [] }
    {
        let spare = Line {
            op: Instruction::Given(0),
            holds: None,
        };
        let lines = BoundedVec::new(spare);
        Script { lines }
    }

    // How many instructions there are.
    pub fn len(&self) -> usize
        ensures { (result ≡ length (written self.now)) × (result ≤ 512) }
    {
        self.lines.len()
    }

    // The instruction of a slot with the term that it holds, if there is one.
    pub fn line(&self, slot: Slot) -> Option<Line>
        ensures { result ≡ nth (written self.now) slot }
    {
        self.lines.get(slot)
    }

    // The instructions in order, each with the term that its slot holds.
    pub fn lines(&self) -> &[Line]
        ensures { result.now ≡ written self.now }
    {
        self.lines.as_slice()
    }

    // The lowest slot that holds a term.
    pub fn slot_of(&self, term: TermId) -> Option<Slot>
        ensures { result ≡ slot_of 0 (written self.now) term }
    {
        self.lines().iter().position(|line| line.is_holding(term))
    }

    // Writes one instruction more, and answers its slot.
    pub fn push(&mut self, op: Instruction, holds: Option<TermId>) -> Result<Slot, ScriptError>
        ensures { Pushed self.old (record { op = op; holds = holds }) result self.new }
    {
        let pushed = self.lines.push(Line { op, holds });
        pushed.map_err(|_| ScriptError::Full)
    }

    // Keeps the first n instructions.
    pub fn cut(&mut self, n: usize)
        ensures { written self.new ≡ take n (written self.old) }
    {
        self.lines.truncate(n);
    }
}
