// How each making is carried out on the terms that are held.
ghost use Rattle.std.specs.Prelude.{◌≡◌};
ghost use Rattle.symbolic_provider.specs.State.{nodes_of};
ghost use Rattle.symbolic_provider.specs.Makings.{PartsAt, form_making, refusal_of};
ghost use Rattle.symbolic_provider.specs.Outcome.{Done};
ghost use Rattle.provider.specs.declared.Making.TheVariants.{Atom, Left, Right, Open, Mate};

use super::SymbolicProvider;
use provider::{Handle, Making, ProviderError};
use terms::{Form, Kind, TermError, TermNode};

// A making whose parts are no terms or of a wrong kind is wrong.
fn refusal(error: TermError) -> ProviderError
    ensures { result ≡ refusal_of error }
{
    match error {
        TermError::Unknown | TermError::WrongKind => ProviderError::Wrong,
        TermError::Full => ProviderError::Full,
    }
}

impl SymbolicProvider {
    fn make_atom(&mut self, kind: usize, id: usize) -> Result<Handle, ProviderError>
        ensures { Done self.old (Atom kind id) result self.new }
    {
        match Kind::try_from(kind) {
            Ok(known) if id <= 65535 => self.terms.name(known, id).map_err(refusal),
            _ => Err(ProviderError::Wrong),
        }
    }

    // Makes a two-part term.
    fn make_form(&mut self, form: Form, a: Handle, b: Handle) -> Result<Handle, ProviderError>
        ensures { Done self.old (form_making form a b) result self.new }
    {
        self.terms.build(form, a, b).map_err(refusal)
    }

    // The parts of the term of the form that a handle stands for.
    fn parts_at(&self, form: Form, handle: Handle) -> Option<(Handle, Handle)>
        ensures { PartsAt form (nodes_of self.now) handle result }
    {
        match self.terms.get(handle)? {
            TermNode::Built(own, left, right) if own == form => Some((left, right)),
            _ => None,
        }
    }

    fn make_left(&self, joined: Handle) -> Result<Handle, ProviderError>
        ensures { Done self.now (Left joined) result self.now }
    {
        self.parts_at(Form::Pair, joined)
            .map(|(left, _)| left)
            .ok_or(ProviderError::Wrong)
    }

    fn make_right(&self, joined: Handle) -> Result<Handle, ProviderError>
        ensures { Done self.now (Right joined) result self.now }
    {
        self.parts_at(Form::Pair, joined)
            .map(|(_, right)| right)
            .ok_or(ProviderError::Wrong)
    }

    // Opens with the one term that opens what the key seals.
    fn make_open(&self, sealed: Handle, opener: Handle) -> Result<Handle, ProviderError>
        ensures { Done self.now (Open sealed opener) result self.now }
    {
        let (content, key) = self
            .parts_at(Form::Sealed, sealed)
            .ok_or(ProviderError::Wrong)?;
        if self.terms.opener(key) == Some(opener) {
            Ok(content)
        } else {
            Err(ProviderError::Wrong)
        }
    }

    fn make_mate(&mut self, key: Handle) -> Result<Handle, ProviderError>
        ensures { Done self.old (Mate key) result self.new }
    {
        self.terms.mate(key).map_err(refusal)
    }

    // Carries out a making.
    pub(super) fn make(&mut self, making: Making) -> Result<Handle, ProviderError>
        ensures { Done self.old making result self.new }
    {
        match making {
            Making::Atom(kind, id) => self.make_atom(kind, id),
            Making::Join(left, right) => self.make_form(Form::Pair, left, right),
            Making::Left(joined) => self.make_left(joined),
            Making::Right(joined) => self.make_right(joined),
            Making::Seal(content, key) => self.make_form(Form::Sealed, content, key),
            Making::Open(sealed, opener) => self.make_open(sealed, opener),
            Making::Digest(function, operand) => self.make_form(Form::Digest, function, operand),
            Making::Entry(table, party) => self.make_form(Form::Entry, table, party),
            Making::Mate(key) => self.make_mate(key),
        }
    }
}
