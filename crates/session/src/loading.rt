// Every term's value on a provider.
ghost use Rattle.session.specs.Outcome.{Loaded};

use acting::SessionRefusal;
use protocol::Protocol;
use provider::{Handle, Provider};

// Asks the provider for every term's value, in number order, puts the handles into the readings, and answers how many there are.
pub fn load<P: Provider>(
    protocol: &Protocol,
    provider: &mut P,
    readings: &mut [Handle],
) -> Result<usize, SessionRefusal>
    ensures { Loaded P.algebra P.meaning protocol.now provider.old readings.old result provider.new readings.new }
{
    let terms = protocol.terms();
    let count = terms.len();
    if readings.len() < count {
        return Err(SessionRefusal::NoMemory);
    }
    acting::load(provider, terms, readings)?;
    Ok(count)
}
