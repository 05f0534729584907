// Where the parties' slots stand in a run: in a row by number.
ghost use Rattle.std.specs.Prelude.{◌≡◌, ◌≤◌};
ghost use Rattle.protocol.specs.View.{lines_of};
ghost use Rattle.runs.specs.Memory.{own_slots, base_of, enough};
ghost use Rattle.terms.specs.Listed.{listed};

use protocol::{Agent, LISTENER, Protocol};
use provider::Handle;

// How many slots a party has: one for each instruction. The listener has none.
fn own_slots(protocol: &Protocol, agent: Agent) -> usize
    ensures is { result ≡ own_slots (lines_of protocol.now) agent }
    ensures few { result ≤ 512 }
{
    if agent == LISTENER {
        return 0;
    }
    protocol.script(agent).map_or(0, |script| script.len())
}

// How many slots the parties before a party have.
fn slots_before(protocol: &Protocol, party: Agent) -> usize
    ensures { result ≡ base_of (lines_of protocol.now) party }
{
    (0..party.min(protocol.agents()))
        .map(|earlier| own_slots(protocol, earlier))
        .sum()
}

// Where a party's slots begin.
pub fn base_of(protocol: &Protocol, party: Agent) -> usize
    ensures { result ≡ base_of (lines_of protocol.now) party }
{
    slots_before(protocol, party)
}

// Whether there is a reading for every term, and a slot for every instruction of the parties.
pub(crate) fn is_enough(protocol: &Protocol, readings: &[Handle], slots: &[Handle]) -> bool
    ensures { result ≡ enough (listed protocol.now.terms) (lines_of protocol.now) readings.now slots.now }
{
    protocol.terms().len() <= readings.len() && base_of(protocol, protocol.agents()) <= slots.len()
}
