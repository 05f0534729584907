// Instructions, and why a script is not written.
ghost use Rattle.std.specs.Prelude.{◌≡◌};
ghost use Rattle.scripts.specs.Lines.{building, is_number};

use terms::{Form, TermId};

// The number of an instruction in its script, and of the slot of its result.
pub type Slot = usize;

// GIVEN, FRESH, FROM, TO and RECV name a term, the others name slots: the parts in order, sealed term and opener, the two that are
// compared, message and address.
#[derive(Clone, Copy, PartialEq, Eq, Debug)]
pub enum Instruction {
    Given(TermId),
    Fresh(TermId),
    From(TermId),
    To(TermId),
    Recv(TermId),
    Mate(Slot),
    Left(Slot),
    Right(Slot),
    Join(Slot, Slot),
    Seal(Slot, Slot),
    Digest(Slot, Slot),
    Entry(Slot, Slot),
    Open(Slot, Slot),
    Same(Slot, Slot),
    Send(Slot, Slot),
}

// An instruction, and the term that its slot holds, if it holds one.
#[derive(Clone, Copy, PartialEq, Eq, Debug)]
pub struct Line {
    pub op: Instruction,
    pub holds: Option<TermId>,
}

impl Line {
    // Whether the slot holds the term.
    pub(crate) fn is_holding(&self, term: TermId) -> bool
        ensures { result ≡ is_number term self.now.holds }
    {
        self.holds == Some(term)
    }
}

// A script would have more than 512 instructions, or a term cannot be composed for want of another.
#[derive(Clone, Copy, PartialEq, Eq, Debug)]
pub enum ScriptError {
    Full,
    Missing(TermId),
}

// What saturating takes next: the left or the right half of the pair at a slot, or the content of the sealed term there, for which
// its opener is composed.
#[derive(Clone, Copy)]
pub enum Taking {
    LeftHalf(Slot, TermId),
    RightHalf(Slot, TermId),
    // slot, opener, content
    Content(Slot, TermId, TermId),
}

// The instruction that builds a form from the slots of its parts.
pub(crate) fn builder(form: Form, first: Slot, second: Slot) -> Instruction
    ensures { result ≡ building form first second }
{
    match form {
        Form::Pair => Instruction::Join(first, second),
        Form::Sealed => Instruction::Seal(first, second),
        Form::Digest => Instruction::Digest(first, second),
        Form::Entry => Instruction::Entry(first, second),
    }
}
