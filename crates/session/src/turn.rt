// Which step of a protocol is a party's next one.
ghost use Rattle.std.specs.Prelude.{◌≡◌, ◌<◌, IfSome};
ghost use Rattle.protocol.specs.View.{steps_of};
ghost use Rattle.session.specs.Turns.{takes_part, next_of, Next};

use protocol::{Agent, Protocol, Step};

// Whether the party sends or receives in a step.
fn takes_part(step: Step, party: Agent) -> bool
    ensures { result ≡ takes_part step party }
{
    step.sender == party || step.receiver == party
}

// The party's first step from a number on, with its number.
pub(crate) fn next_step(protocol: &Protocol, from: usize, party: Agent) -> Option<(usize, Step)>
    ensures is { result ≡ next_of (steps_of protocol.now) from party }
    ensures lowest { Next (steps_of protocol.now) from party result }
    ensures few { IfSome result (λ x. x.0 < 64) }
{
    (from..protocol.steps()).find_map(|number| {
        let step = protocol.step(number)?;
        takes_part(step, party).then_some((number, step))
    })
}
