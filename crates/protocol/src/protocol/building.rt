// Building terms.
ghost use Rattle.std.specs.Prelude.{◌≡◌, ◌≢◌};
ghost use Rattle.rules.specs.State.{BUILD, form_of};
ghost use Rattle.protocol.specs.View.{view_of};
ghost use Rattle.protocol.specs.Outcome.{Performed, Unaltered, number};
ghost use Rattle.protocol.specs.Adding.{tree_form, Adds};

use crate::protocol::Protocol;
use crate::refusal::Refusal;
use terms::{Form, TermId, Terms};

// The form of a mate, which has one part.
const MATE: usize = 4;

// The two-part form of a number.
fn form_of(form: usize) -> Option<Form>
    ensures { tree_form result ≡ form_of form }
{
    Form::try_from(form).ok()
}

// A term with two parts.
fn build_form(terms: &mut Terms<512>, form: usize, a: TermId, b: TermId) -> Result<TermId, Refusal>
    requires { form ≢ 4 }
    ensures { Adds terms.old (BUILD form a b) result terms.new }
{
    match form_of(form) {
        Some(known) => Ok(terms.build(known, a, b)?),
        None => Err(Refusal::Unknown),
    }
}

// A term of any form.
fn build_term(terms: &mut Terms<512>, form: usize, a: TermId, b: TermId) -> Result<TermId, Refusal>
    ensures { Adds terms.old (BUILD form a b) result terms.new }
{
    if form == MATE {
        Ok(terms.mate(a)?)
    } else {
        build_form(terms, form, a, b)
    }
}

impl Protocol {
    // The number of a term, which is added if it is new.
    pub(super) fn perform_build(
        &mut self,
        form: usize,
        a: TermId,
        b: TermId,
    ) -> Result<TermId, Refusal>
        ensures performed { Performed (view_of self.old) (BUILD form a b) (number result) (view_of self.new) }
        ensures unaltered { Unaltered result self.old self.new }
    {
        build_term(&mut self.terms, form, a, b)
    }
}
