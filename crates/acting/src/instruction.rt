// One instruction.
ghost use Rattle.std.specs.Prelude.{◌≡◌, ◌+◌, ◌≤◌, slice_index};
ghost use Rattle.acting.specs.Acts.{Acts};
ghost use Rattle.acting.specs.Carrying.{op_act, tally};

use provider::{Handle, Provider, ProviderError};
use scripts::{Instruction, Slot};
use terms::TermId;

// Which part of a step is carried out. To receive is to be handed the sender's name and the message.
#[derive(Clone, Copy, PartialEq, Eq, Debug)]
pub enum Part {
    Start,
    Send,
    Receive { from: Handle, message: Handle },
}

// The handle of a term; 0 past the end.
pub(crate) fn reading(readings: &[Handle], term: TermId) -> Handle
    ensures { result ≡ slice_index readings.now term }
{
    readings.get(term).copied().unwrap_or(0)
}

// The handle in a slot of the session whose slots begin at base; 0 past the end.
fn held(slots: &[Handle], base: usize, slot: Slot) -> Handle
    ensures { result ≡ slice_index slots.now (base + slot) }
{
    slots.get(base..).map_or(0, |own| reading(own, slot))
}

// Carries out one instruction, and answers the handle that goes into its slot.
pub(crate) fn act<P: Provider>(
    provider: &mut P,
    readings: &[Handle],
    slots: &[Handle],
    base: usize,
    op: Instruction,
    part: Part,
) -> Result<Handle, ProviderError>
    ensures { Acts P.algebra P.meaning (op_act readings.now part base slots.now op) provider.old result provider.new }
{
    match op {
        Instruction::Given(term) | Instruction::Fresh(term) => Ok(reading(readings, term)),
        Instruction::From(_) if let Part::Receive { from, .. } = part => Ok(from),
        Instruction::Recv(_) if let Part::Receive { message, .. } = part => Ok(message),
        Instruction::From(_) | Instruction::To(_) | Instruction::Recv(_) => {
            Err(ProviderError::Wrong)
        }
        Instruction::Mate(key) => provider.mate(held(slots, base, key)),
        Instruction::Left(joined) => provider.left(held(slots, base, joined)),
        Instruction::Right(joined) => provider.right(held(slots, base, joined)),
        Instruction::Join(left, right) => {
            provider.join(held(slots, base, left), held(slots, base, right))
        }
        Instruction::Seal(content, key) => {
            provider.seal(held(slots, base, content), held(slots, base, key))
        }
        Instruction::Digest(function, operand) => {
            provider.digest(held(slots, base, function), held(slots, base, operand))
        }
        Instruction::Entry(table, party) => {
            provider.entry(held(slots, base, table), held(slots, base, party))
        }
        Instruction::Open(sealed, opener) => {
            provider.open(held(slots, base, sealed), held(slots, base, opener))
        }
        Instruction::Same(a, b) if provider.same(held(slots, base, a), held(slots, base, b)) => {
            Ok(held(slots, base, a))
        }
        Instruction::Same(_, _) => Err(ProviderError::Wrong),
        Instruction::Send(message, _) => Ok(held(slots, base, message)),
    }
}

// How many comparisons an instruction is.
pub(crate) fn comparisons(op: Instruction) -> usize
    ensures { (result ≡ tally op) × (result ≤ 1) }
{
    usize::from(matches!(op, Instruction::Same(_, _)))
}
