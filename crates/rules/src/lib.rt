// The rules by which an agent's script is written, over terms as trees: how a term is composed, what is missing, how a script is
// saturated and a message walked, what initial knowledge and a step write, and what every call on a protocol answers and does.
// The crate promises that after every list of calls from blank each answer is right: a step is granted only if its sender can build
// the message and refused as unmakeable only if it cannot, and whether an agent can build a term is answered exactly.
// Nothing here computes: each function carries one theorem in its contract.

#![tactic(auto)]

ghost use Rattle.rules.specs.Theorems.{FindingFinds, ComposingDecides, ComposingMakes, MissingMisses, SaturationEndsSaturated};
ghost use Rattle.rules.specs.Theorems.{WalkingGains, KnowingGains, ReceivingGains, OverhearingGains, SendingGains};
ghost use Rattle.rules.specs.Theorems.{RulesOnlyAppend, CallsOnlyAdd, ScriptsRepresent, LinesFit};
ghost use Rattle.rules.specs.Theorems.{NoTermTwice, MissingIsNamed, EveryCallHasOneOutcome, SmallExample};
ghost use Rattle.rules.specs.History.{AnswersAreRight, NumbersStand};
ghost use Rattle.rules.specs.Invariant.{StatesAreStable};

// The slot that is found holds the term, and is the lowest that does; none is found exactly if no slot holds it.
pub fn finding_finds_the_lowest_slot()
    ensures { FindingFinds }
{}

// A term can be composed exactly if it is composable from what the script holds.
pub fn composing_decides_composable()
    ensures { ComposingDecides }
{}

// A composed term is held by the answered slot of a script that goes on from the earlier one, and nothing else becomes composable.
pub fn composing_holds_the_term()
    ensures { ComposingMakes }
{}

// A missing term is a name or a mate of the term that no slot holds; none is missing exactly if the term can be composed.
pub fn missing_is_not_held()
    ensures { MissingMisses }
{}

// Saturating goes on until no step is left, in one way, and ends with saturated held terms.
pub fn saturation_ends_saturated()
    ensures { SaturationEndsSaturated }
{}

// A walked term can be composed afterwards, and every held term is derivable from it and what was held.
pub fn walk_covers_and_is_sound()
    ensures { WalkingGains }
{}

// The same of initial knowledge, which ends saturated.
pub fn knowledge_covers_and_is_sound()
    ensures { KnowingGains }
{}

// The same of a received message and its sender's name.
pub fn receiving_covers_and_is_sound()
    ensures { ReceivingGains }
{}

// The same of an overheard message and both names.
pub fn overhearing_covers_and_is_sound()
    ensures { OverhearingGains }
{}

// A sender gains its fresh names and the mates of fresh public keys, and nothing else.
pub fn sending_covers_and_is_sound()
    ensures { SendingGains }
{}

// Every rule goes on from the script that it is given, and a step of saturating makes it longer.
pub fn rules_only_append()
    ensures { RulesOnlyAppend }
{}

// A call keeps every term at its number, and every script goes on from the earlier one.
pub fn calls_only_add()
    ensures { CallsOnlyAdd }
{}

// After every list of calls an agent's script stands for what the agent was given.
pub fn scripts_represent_what_is_given()
    ensures { ScriptsRepresent }
{}

// After every list of calls each line of a script fits the slots before it.
pub fn every_line_fits()
    ensures { LinesFit }
{}

// After every list of calls no script holds a term in two slots.
pub fn no_term_is_held_twice()
    ensures { NoTermTwice }
{}

// After every list of calls each number stands for one term, the one that the call which answered it made.
pub fn numbers_stand_for_terms()
    ensures { NumbersStand }
{}

// After every list of calls every call is answered right.
pub fn answers_are_right()
    ensures { AnswersAreRight }
{}

// The term that a refused step answers as missing is a name or a mate in the message that the sender cannot build.
pub fn missing_term_cannot_be_built()
    ensures { MissingIsNamed }
{}

// After every list of calls: terms are well-formed, apart and closed under parts, a name's identity is its number, there is one script
// for the listener and one for each party, and the test whether a name is used decides it.
pub fn every_state_is_stable()
    ensures { StatesAreStable }
{}

// Every call has one answer, and leaves one state.
pub fn every_call_has_one_outcome()
    ensures { EveryCallHasOneOutcome }
{}

// One party sends another its own name with a fresh number: the three scripts, line by line.
pub fn small_example()
    ensures { SmallExample }
{}
