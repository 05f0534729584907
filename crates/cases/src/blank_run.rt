// A run of a blank protocol.
ghost use Rattle.std.specs.Prelude.{◌≡◌, Ok};

use protocol::Protocol;
use provider::Provider;
use runs::{Played, RunFault, run};

// The run, with no memory at all.
fn run_nothing<P: Provider>(provider: &mut P) -> Result<Played, RunFault>
    ensures { result ≡ Ok (record { steps = 0; sames = 0 }) }
{
    run(&Protocol::blank(), provider, &mut [], &mut [])
}

// On any provider: no step is played and nothing is compared.
pub fn run_blank<P: Provider>(provider: &mut P) -> Result<Played, RunFault>
    ensures { result ≡ Ok (record { steps = 0; sames = 0 }) }
{
    run_nothing(provider)
}
