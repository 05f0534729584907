// The calls of the provider.
ghost use Rattle.std.specs.Prelude.{◌≡◌, []};
ghost use Rattle.provider.specs.Meaning.{Same};
ghost use Rattle.deduction.specs.Term.{Formed, Term};
ghost use Rattle.symbolic_provider.specs.Outcome.{Outcome};
ghost use Rattle.symbolic_provider.specs.Records.{Recorded};
ghost use Rattle.symbolic_provider.specs.State.{fits_of, issued_of, meaning_of};
ghost use Rattle.symbolic_provider.specs.Values.{term_algebra};
ghost use Rattle.symbolic_provider.specs.Laws;
ghost use Rattle.std.proofs.Common.{rules};

use super::SymbolicProvider;
use provider::{Handle, Making, Provider, ProviderError};
use terms::{TermNode, Terms};

impl SymbolicProvider {
    // A provider with nothing in it.
    pub fn blank() -> Self
        ensures { issued_of result ≡ [] }
    {
        SymbolicProvider {
            terms: Terms::blank(),
        }
    }

    // The term that a handle stands for, by its name or by the handles of its parts, which are the numbers of the table; none if
    // the handle was never issued.
    #[tactic(auto, using(crate::proofs::Records::recorded))]
    pub fn term(&self, handle: Handle) -> Option<TermNode>
        ensures { Recorded (issued_of self.now) handle result }
    {
        self.terms.get(handle)
    }

    // Whether two handles stand for one term: they are one number then.
    fn equals(&self, a: Handle, b: Handle) -> bool
        ensures { Same (issued_of self.now) a b result }
    {
        a == b && a < self.terms.len()
    }

    // Tries a making on a copy.
    fn admits(&self, making: Making) -> bool
        ensures { result ≡ fits_of self.now making }
    {
        let mut trial = *self;
        trial.make(making).is_ok()
    }
}

impl Provider for SymbolicProvider {
    ghost value = { Term };

    ghost proper = { Formed };

    ghost algebra = { term_algebra };

    ghost meaning = { meaning_of };

    ghost outcome = { Outcome };

    ghost holds = { Laws.holds };

    ghost unfit = { Prim.search rules };

    ghost halves = { Prim.search rules };

    ghost mates = { Laws.mates };

    ghost seals = { Prim.search rules };

    ghost builds = { Prim.search rules };

    fn make(&mut self, making: Making) -> Result<Handle, ProviderError> {
        self.make(making)
    }

    fn same(&self, a: Handle, b: Handle) -> bool
        ensures { Same (issued_of self.now) a b result }
    {
        self.equals(a, b)
    }

    fn fits(&self, making: Making) -> bool
        ensures { result ≡ fits_of self.now making }
    {
        self.admits(making)
    }
}
