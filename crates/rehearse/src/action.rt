// An instruction in words, with the terms that it stands for in the table's notation.
use scripts::{Instruction, Line, Script, Slot};
use std::fmt;
use table_words::{Table, TermText};
use terms::{TermId, TermNode};

// An instruction of a script.
#[derive(Clone, Copy)]
pub(crate) struct Action<'a> {
    pub(crate) table: Table<'a>,
    pub(crate) script: &'a Script,
    pub(crate) line: Line,
}

impl<'a> Action<'a> {
    // The two parts of a term; a mate or a name has none.
    fn parts(self, term: TermId) -> Option<(TermId, TermId)> {
        match self.table.protocol.terms().get(term)? {
            TermNode::Built(_, first, second) => Some((first, second)),
            TermNode::Name(_, _) | TermNode::Mate(_) => None,
        }
    }

    // The term that a slot holds.
    fn held(self, slot: Slot) -> Option<TermId> {
        self.script.line(slot)?.holds
    }

    // The term that the instruction's own slot stands for. What is taken apart is held, and so is what a value is compared with.
    fn meant(self) -> Option<TermId> {
        match self.line.op {
            Instruction::Given(term)
            | Instruction::Fresh(term)
            | Instruction::From(term)
            | Instruction::To(term)
            | Instruction::Recv(term) => Some(term),
            Instruction::Left(slot) | Instruction::Open(slot, _) => {
                self.parts(self.held(slot)?).map(|parts| parts.0)
            }
            Instruction::Right(slot) => self.parts(self.held(slot)?).map(|parts| parts.1),
            Instruction::Same(_, slot) | Instruction::Send(slot, _) => self.held(slot),
            Instruction::Mate(_)
            | Instruction::Join(_, _)
            | Instruction::Seal(_, _)
            | Instruction::Digest(_, _)
            | Instruction::Entry(_, _) => self.line.holds,
        }
    }

    fn address(self, slot: Slot) -> TermText<'a> {
        self.table.term(self.held(slot).unwrap_or(0))
    }
}

impl fmt::Display for Action<'_> {
    fn fmt<W: fmt::Write>(&self, f: &mut fmt::Formatter<W>) -> fmt::Result {
        let term = self.table.term(self.meant().unwrap_or(0));
        match self.line.op {
            Instruction::Given(_) => write!(f, "starts with {term}"),
            Instruction::Fresh(_) => write!(f, "makes {term}"),
            Instruction::From(_) => write!(f, "hears from {term}"),
            Instruction::To(_) => write!(f, "hears that it goes to {term}"),
            Instruction::Recv(_) => write!(f, "receives {term}"),
            Instruction::Mate(s) => write!(f, "takes the mate of slot {s}, {term}"),
            Instruction::Left(s) => write!(f, "takes the left half of slot {s}, {term}"),
            Instruction::Right(s) => write!(f, "takes the right half of slot {s}, {term}"),
            Instruction::Join(a, b) => write!(f, "joins slots {a} and {b} to {term}"),
            Instruction::Seal(c, k) => write!(f, "seals slot {c} under slot {k} to {term}"),
            Instruction::Digest(g, t) => write!(f, "digests slot {t} under slot {g} to {term}"),
            Instruction::Entry(t, p) => write!(f, "looks slot {p} up in slot {t}, {term}"),
            Instruction::Open(s, o) => write!(f, "opens slot {s} with slot {o} to {term}"),
            Instruction::Same(a, b) => write!(f, "compares slots {a} and {b}, both {term}"),
            Instruction::Send(m, a) => {
                write!(
                    f,
                    "sends slot {m}, {term}, to slot {a}, {}",
                    self.address(a)
                )
            }
        }
    }
}
