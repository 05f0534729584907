// The calls on a protocol that a text makes, by name.
ghost use Rattle.std.specs.Prelude.{◌≡◌};
ghost use Rattle.protocol.specs.View.{view_of};
ghost use Rattle.table_text.specs.Calls.{Builds, DIGEST, ENTRY, Knows, MATE, NewName, PAIR, SEALED, Steps};

use names::Named;
use protocol::{Agent, Protocol, Refusal};
use terms::{Form, Kind, TermId};

// The form of a mate, which has one part.
const MATE_FORM: usize = 4;

// A new name of a kind, as it is declared.
pub(crate) fn new_name(protocol: &mut Protocol, kind: Kind) -> Result<Named, Refusal>
    ensures { NewName kind (view_of protocol.old) result (view_of protocol.new) }
{
    let term = protocol.name(usize::from(kind))?;
    Ok(Named { kind, term })
}

pub(crate) fn pair(
    protocol: &mut Protocol,
    first: TermId,
    second: TermId,
) -> Result<TermId, Refusal>
    ensures { Builds PAIR first second (view_of protocol.old) result (view_of protocol.new) }
{
    protocol.build(Form::Pair as usize, first, second)
}

pub(crate) fn seal(protocol: &mut Protocol, content: TermId, key: TermId) -> Result<TermId, Refusal>
    ensures { Builds SEALED content key (view_of protocol.old) result (view_of protocol.new) }
{
    protocol.build(Form::Sealed as usize, content, key)
}

pub(crate) fn digest(
    protocol: &mut Protocol,
    function: TermId,
    content: TermId,
) -> Result<TermId, Refusal>
    ensures { Builds DIGEST function content (view_of protocol.old) result (view_of protocol.new) }
{
    protocol.build(Form::Digest as usize, function, content)
}

pub(crate) fn table_entry(
    protocol: &mut Protocol,
    table: TermId,
    party: TermId,
) -> Result<TermId, Refusal>
    ensures { Builds ENTRY table party (view_of protocol.old) result (view_of protocol.new) }
{
    protocol.build(Form::Entry as usize, table, party)
}

pub(crate) fn mate(protocol: &mut Protocol, key: TermId) -> Result<TermId, Refusal>
    ensures { Builds MATE key 0 (view_of protocol.old) result (view_of protocol.new) }
{
    protocol.build(MATE_FORM, key, 0)
}

// An agent knows a term from the start.
pub(crate) fn know(protocol: &mut Protocol, agent: Agent, term: TermId) -> Result<(), Refusal>
    ensures { Knows agent term (view_of protocol.old) result (view_of protocol.new) }
{
    protocol.add_knowledge(agent, term)
}

// A step from one agent to another.
pub(crate) fn step(
    protocol: &mut Protocol,
    sender: Agent,
    receiver: Agent,
    message: TermId,
) -> Result<usize, Refusal>
    ensures { Steps sender receiver message (view_of protocol.old) result (view_of protocol.new) }
{
    protocol.add_step(sender, receiver, message)
}
