// What can be derived from known messages, in the symbolic model: terms as trees, keys and their openers, the seven ways
// of deriving a term, what can be composed from held terms, and when held terms are saturated.
// The crate promises that these agree. Nothing here computes: each function carries one theorem in its contract.

#![tactic(auto)]

ghost use Rattle.deduction.specs.Theorems.{ComposableIffDerivable, FreshNamesKeepEquivalence, WaysKeepDerivable, DerivabilityGrows};
ghost use Rattle.deduction.specs.Theorems.{DerivabilityIsTransitive, NamesComeFromGivens, DerivableIsFormed, OpenerCases};

// Composable from saturated held terms that stand for the givens: exactly the derivable terms.
pub fn composable_iff_derivable()
    ensures { ComposableIffDerivable }
{}

// It stays so when fresh names are added to the givens and to the held terms.
pub fn fresh_names_keep_equivalence()
    ensures { FreshNamesKeepEquivalence }
{}

// Each of the seven ways leads from derivable terms to a derivable term.
pub fn ways_keep_derivable()
    ensures { WaysKeepDerivable }
{}

// More givens derive at least as much.
pub fn derivability_grows()
    ensures { DerivabilityGrows }
{}

// Givens that are derivable from others derive nothing more than these.
pub fn derivability_is_transitive()
    ensures { DerivabilityIsTransitive }
{}

// Every name in a derivable term is a name in some given.
pub fn names_come_from_givens()
    ensures { NamesComeFromGivens }
{}

// From well-formed givens only well-formed terms are derivable.
pub fn derivable_is_formed()
    ensures { DerivableIsFormed }
{}

// Which keys open a sealed term, and that a public key does not open what it sealed.
pub fn opener_cases()
    ensures { OpenerCases }
{}
