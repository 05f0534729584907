// The parts of the parties' scripts: what precedes the first step, and what each granted step wrote into the scripts of its sender and
// its receiver.
// The crate promises, after every list of calls from blank: the state is within its limits, its steps are those that were granted, in
// order, and their parts follow each other without gap, each with the instructions that its sender or receiver can do there.
// Nothing here computes: each function carries one theorem in its contract.

#![tactic(auto)]

ghost use Rattle.parts.specs.Law.{StatesWithinLimits, StepsWrote, StepsAreGranted, PartsFollow};
ghost use Rattle.parts.specs.Example.{ExampleParts};

// A state has at most 512 terms, 8 scripts of at most 512 instructions each, and 64 steps.
pub fn every_state_is_within_limits()
    ensures { StatesWithinLimits }
{}

// A state's steps are those that its history granted, in order, each answered with its place.
pub fn steps_are_those_granted()
    ensures { StepsAreGranted }
{}

// A step wrote the next part of its sender's script, which ends with SEND, and the next part of its receiver's, which begins with FROM;
// with the initial parts these are all that is written.
pub fn steps_wrote_their_parts()
    ensures { StepsWrote }
{}

// A granted step's parts begin where the scripts of its sender and its receiver ended when it was granted, for good.
pub fn parts_follow_what_was_written()
    ensures { PartsFollow }
{}

// One party sends another its own name with a fresh number: where the parts begin and end, and the one comparison.
pub fn small_example_parts()
    ensures { ExampleParts }
{}
