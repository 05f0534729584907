// Reading and running.
ghost use Rattle.table_run.specs.TableRuns.{TableRuns};

use crate::fault::TableRunFault;
use protocol::Protocol;
use provider::{Handle, Provider};
use runs::{Played, run};
use table_text::read_table;

// Reads a table into a blank protocol, and runs what it says on a provider. A text that is refused leaves the protocol blank, and the
// provider, the readings and the slots as they were.
#[tactic(auto, using(crate::proofs::Joined::run_of_text))]
pub fn read_and_run<P: Provider>(
    protocol: &mut Protocol,
    text: &[u8],
    provider: &mut P,
    readings: &mut [Handle],
    slots: &mut [Handle],
) -> Result<Played, TableRunFault>
    ensures { TableRuns P.algebra P.meaning text.now provider.old readings.old slots.old result protocol.new provider.new readings.new slots.new }
{
    read_table(protocol, text)?;
    Ok(run(protocol, provider, readings, slots)?)
}
