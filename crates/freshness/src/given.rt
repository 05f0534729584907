// The terms that a script gives.
ghost use Rattle.scripts.specs.View.{written};
ghost use Rattle.freshness.specs.Given.{gives, given_in};
ghost use Rattle.freshness.specs.Marks.{Marked};

use scripts::{Instruction, Script};
use terms::Marks;

// Marks the term that an instruction gives.
fn mark_instruction(op: Instruction, marks: &mut Marks<512>)
    ensures { Marked (λ t. gives t op) marks.old marks.new }
{
    if let Instruction::Given(term) = op {
        marks.insert(term);
    }
}

// Marks each term that a GIVEN of the script names; the others stay as they were.
pub fn mark_given(script: &Script, marks: &mut Marks<512>)
    ensures { Marked (λ t. given_in t (written script.now)) marks.old marks.new }
{
    for line in script.lines() {
        mark_instruction(line.op, marks);
    }
}
