// Every term's handle, in number order.
ghost use Rattle.std.specs.Prelude.{length};
ghost use Rattle.acting.specs.Acts.{Acts};
ghost use Rattle.acting.specs.Loading.{node_act, Loads};
ghost use Rattle.acting.specs.Standing.{KeptOutside, Bounded, LoadStands};
ghost use Rattle.terms.specs.Listed.{listed};

use crate::halt::Halt;
use crate::instruction::reading;
use provider::{Handle, Provider, ProviderError};
use terms::{Form, TermId, TermNode, Terms};

// Makes a term from the handles of its parts; a name is the atom of its kind and of the term's own number.
fn make<P: Provider>(
    provider: &mut P,
    readings: &[Handle],
    term: TermId,
    node: TermNode,
) -> Result<Handle, ProviderError>
    ensures { Acts P.algebra P.meaning (node_act readings.now term node) provider.old result provider.new }
{
    match node {
        TermNode::Name(kind, _) => provider.atom(usize::from(kind), term),
        TermNode::Built(Form::Pair, left, right) => {
            provider.join(reading(readings, left), reading(readings, right))
        }
        TermNode::Built(Form::Sealed, content, key) => {
            provider.seal(reading(readings, content), reading(readings, key))
        }
        TermNode::Built(Form::Digest, function, operand) => {
            provider.digest(reading(readings, function), reading(readings, operand))
        }
        TermNode::Built(Form::Entry, table, party) => {
            provider.entry(reading(readings, table), reading(readings, party))
        }
        TermNode::Mate(key) => provider.mate(reading(readings, key)),
    }
}

// The loop over the terms: by number, since making a term reads the readings before its own.
fn load_terms<P: Provider>(
    provider: &mut P,
    terms: &Terms<512>,
    readings: &mut [Handle],
) -> Result<usize, Halt>
    ensures { Loads P.algebra P.meaning (listed terms.now) provider.old readings.old result provider.new readings.new }
{
    for term in 0..readings.len() {
        let Some(node) = terms.get(term) else {
            return Ok(term);
        };
        let made = make(provider, readings, term, node);
        readings[term] = made.map_err(|error| Halt { at: term, error })?;
    }
    Ok(readings.len())
}

// Asks the provider for every term's value, in number order, and answers how many there are. It ends early where the readings end.
pub fn load<P: Provider>(
    provider: &mut P,
    terms: &Terms<512>,
    readings: &mut [Handle],
) -> Result<usize, Halt>
    ensures whole { Loads P.algebra P.meaning (listed terms.now) provider.old readings.old result provider.new readings.new }
    ensures keeps { KeptOutside P.meaning 0 (length (listed terms.now)) provider.old readings.old provider.new readings.new }
    ensures bounds { Bounded 0 (length (listed terms.now)) result }
    ensures stands { LoadStands P.algebra P.meaning (listed terms.now) readings.old result provider.new readings.new }
{
    load_terms(provider, terms, readings)
}
