// Making a list of calls.
ghost use Rattle.std.specs.Prelude.{◌≤◌, length};
ghost use Rattle.compiled.specs.Histories.{Performs, PerformsIf};

use acting::SessionRefusal;
use protocol::{Answer, Call, Protocol};

// Makes the calls in order on a blanked protocol, with their answers at the front of the lent list. With fewer answers lent than calls
// nothing is altered.
pub fn perform_all(
    protocol: &mut Protocol,
    calls: &[Call],
    answers: &mut [Answer],
) -> Result<(), SessionRefusal>
    ensures { PerformsIf protocol.old calls.now answers.old result protocol.new answers.new }
{
    if answers.len() < calls.len() {
        return Err(SessionRefusal::NoMemory);
    }
    make_calls(protocol, calls, answers);
    Ok(())
}

// The calls in order, where there is an answer for each.
fn make_calls(protocol: &mut Protocol, calls: &[Call], answers: &mut [Answer])
    requires { length calls.now ≤ length answers.old }
    ensures { Performs calls.now answers.old protocol.new answers.new }
{
    *protocol = Protocol::blank();
    for number in 0..calls.len() {
        answers[number] = protocol.call(calls[number]);
    }
}
