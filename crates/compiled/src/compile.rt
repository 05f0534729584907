// Compiling and running in one call.
ghost use Rattle.compiled.specs.Compiled.{Compiled};

use crate::calls::perform_all;
use protocol::{Answer, Call, Protocol};
use provider::{Handle, Provider};
use runs::{Played, RunFault, run};

// Makes the calls in order on a blanked protocol, with their answers into the lent list, and runs what came of them on a provider.
pub fn compile_and_run<P: Provider>(
    protocol: &mut Protocol,
    calls: &[Call],
    answers: &mut [Answer],
    provider: &mut P,
    readings: &mut [Handle],
    slots: &mut [Handle],
) -> Result<Played, RunFault>
    ensures { Compiled P.algebra P.meaning calls.now protocol.old answers.old provider.old readings.old slots.old result protocol.new answers.new provider.new readings.new slots.new }
{
    perform_all(protocol, calls, answers)?;
    run(protocol, provider, readings, slots)
}
