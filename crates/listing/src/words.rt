// How an instruction is spelled.
ghost use Rattle.std.specs.Prelude.{◌≡◌};
ghost use Rattle.listing.specs.Listing.{operands_of, word_of};

use scripts::Instruction;

pub(crate) fn word(op: Instruction) -> &'static str
    ensures { result.now ≡ word_of op }
{
    match op {
        Instruction::Given(_) => "GIVEN",
        Instruction::Fresh(_) => "FRESH",
        Instruction::From(_) => "FROM",
        Instruction::To(_) => "TO",
        Instruction::Recv(_) => "RECV",
        Instruction::Mate(_) => "MATE",
        Instruction::Left(_) => "LEFT",
        Instruction::Right(_) => "RIGHT",
        Instruction::Join(_, _) => "JOIN",
        Instruction::Seal(_, _) => "SEAL",
        Instruction::Digest(_, _) => "DIGEST",
        Instruction::Entry(_, _) => "ENTRY",
        Instruction::Open(_, _) => "OPEN",
        Instruction::Same(_, _) => "SAME",
        Instruction::Send(_, _) => "SEND",
    }
}

// The first operand, and the second where there are two.
pub(crate) fn operands(op: Instruction) -> (usize, Option<usize>)
    ensures { result ≡ operands_of op }
{
    match op {
        Instruction::Given(term)
        | Instruction::Fresh(term)
        | Instruction::From(term)
        | Instruction::To(term)
        | Instruction::Recv(term) => (term, None),
        Instruction::Mate(slot) | Instruction::Left(slot) | Instruction::Right(slot) => {
            (slot, None)
        }
        Instruction::Join(first, second)
        | Instruction::Seal(first, second)
        | Instruction::Digest(first, second)
        | Instruction::Entry(first, second)
        | Instruction::Open(first, second)
        | Instruction::Same(first, second)
        | Instruction::Send(first, second) => (first, Some(second)),
    }
}
