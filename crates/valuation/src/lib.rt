// What terms and scripts stand for on a provider: the value of a term, the term of each slot of a script, and the scripts whose
// instructions find what they ask for.
// The crate promises, on every provider: a well-formed term has a value, and the instructions of a fitting script make the
// values of their slots' terms. And of every protocol: its terms are well-formed and its scripts fit. Nothing here computes:
// each function carries one theorem in its contract.

#![tactic(auto)]

ghost use Rattle.valuation.specs.Law.{FormedHasValue, SlotValues, TermsHaveValues, TermsSettled, ScriptsFit};

use provider::Provider;

// A well-formed term has a value on every provider, and a key's value has a mate.
pub fn well_formed_terms_have_values<P: Provider>(_provider: &P)
    ensures { FormedHasValue P.algebra }
{}

// On every provider the instructions of a fitting script make the values of their slots' terms.
pub fn slots_stand_for_their_terms<P: Provider>(_provider: &P)
    ensures { SlotValues P.proper P.algebra }
{}

// Every term of every protocol has a value on every provider.
pub fn every_term_has_a_value<P: Provider>(_provider: &P)
    ensures { TermsHaveValues P.algebra }
{}

// The terms of every protocol are settled: well-formed, and their parts among them.
pub fn every_term_is_settled()
    ensures { TermsSettled }
{}

// Every script of every protocol fits its terms.
pub fn every_script_fits()
    ensures { ScriptsFit }
{}
