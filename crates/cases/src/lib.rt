// The cases by which the whole is known, as one proved table: which key opens what, what comes of keys that are sent later, what a refused
// step leaves behind, what a run of a blank protocol answers, and the bytes of a sealed value.
// A case that speaks of calls is proved of what the calls answer and leave, and not of a test of theirs.

#![tactic(auto)]

ghost use Rattle.cases.specs.Cases.{KnownCases};

mod blank_run;

pub use blank_run::run_blank;

// Every case holds.
pub fn known_cases()
    ensures { KnownCases }
{}
