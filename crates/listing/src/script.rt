// Listing an agent's script.
ghost use Rattle.std.specs.Prelude.{◌≡◌, ◌≤◌, ◌++◌, drop, length};
ghost use Rattle.protocol.specs.View.{lines_of};
ghost use Rattle.scripts.specs.View.{written};
ghost use Rattle.listing.specs.Listing.{listing_of, Lists};

use crate::refusal::ListingError;
use crate::text::Text;
use protocol::{Agent, Protocol};
use scripts::Script;

// Writes as much of the text as fits into the memory, and answers how long the text is.
fn write(memory: &mut [u8], agent: Agent, script: &Script) -> usize
    ensures len { result ≡ length (listing_of agent (written script.now)) }
    ensures front { result ≤ length memory.old → memory.new ≡ listing_of agent (written script.now) ++ drop result memory.old }
{
    let mut text = Text::new(memory);
    text.lines(agent, script.lines());
    text.len()
}

// Writes an agent's script to the front of the output, and answers how long the text is. The text is measured first, so that
// nothing is written where it does not fit.
pub fn list(protocol: &Protocol, agent: Agent, output: &mut [u8]) -> Result<usize, ListingError>
    ensures { Lists (lines_of protocol.now) agent output.old result output.new }
{
    let script = protocol.script(agent).ok_or(ListingError::Unknown)?;
    let len = write(&mut [], agent, script);
    if len > output.len() {
        return Err(ListingError::Short);
    }
    Ok(write(output, agent, script))
}
