// A range of a script's instructions, in order.
ghost use Rattle.std.specs.Prelude.{◌+◌};
ghost use Rattle.acting.specs.Carrying.{CarriedOut};
ghost use Rattle.acting.specs.Standing.{KeptOutside, Bounded, PartStands};
ghost use Rattle.scripts.specs.View.{written};

use crate::halt::Halt;
use crate::instruction::{Part, act, comparisons};
use provider::{Handle, Provider};
use scripts::Script;
use std::ops::Range;

// The loop over the instructions.
fn carry<P: Provider>(
    provider: &mut P,
    readings: &[Handle],
    slots: &mut [Handle],
    base: usize,
    script: &Script,
    range: Range<usize>,
    part: Part,
) -> Result<usize, Halt>
    ensures { CarriedOut P.algebra P.meaning readings.now part base (written script.now) range.start range.end provider.old slots.old result provider.new slots.new }
{
    let mut sames = 0;
    let room = slots.len().saturating_sub(base);
    // by number: an instruction reads the slots before its own
    for at in range.start..range.end.min(room) {
        let Some(line) = script.line(at) else {
            return Ok(sames);
        };
        let done = act(provider, readings, slots, base, line.op, part);
        slots[base + at] = done.map_err(|error| Halt { at, error })?;
        sames += comparisons(line.op);
    }
    Ok(sames)
}

// Carries out the instructions of a script in a range, on the slots from base on, and answers how many comparisons were done. It ends
// early where the script or the slots end. The slots are lent whole, since what is said of runs names them by their places in the row.
pub fn carry_out<P: Provider>(
    provider: &mut P,
    readings: &[Handle],
    slots: &mut [Handle],
    base: usize,
    script: &Script,
    range: Range<usize>,
    part: Part,
) -> Result<usize, Halt>
    ensures whole { CarriedOut P.algebra P.meaning readings.now part base (written script.now) range.start range.end provider.old slots.old result provider.new slots.new }
    ensures keeps { KeptOutside P.meaning (base + range.start) (base + range.end) provider.old slots.old provider.new slots.new }
    ensures bounds { Bounded range.start range.end result }
    ensures stands { PartStands P.algebra P.meaning readings.now part base (written script.now) range.start range.end provider.old slots.old result provider.new slots.new }
{
    carry(provider, readings, slots, base, script, range, part)
}
