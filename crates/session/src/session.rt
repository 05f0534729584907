// A session; its calls stand in the modules below it.
ghost use Rattle.std.specs.Prelude.{◌≡◌};

use protocol::Agent;

mod calls;
mod plan;

// A party's script under way: not started, or with all of the party's steps below the number `next` done. The protocol, the provider
// and the memory are lent at each call.
#[derive(Clone, Copy)]
pub struct Session {
    party: Agent,
    next: Option<usize>,
}

impl Session {
    // A session that has not started.
    pub fn new(party: Agent) -> Session
        ensures { result ≡ record { party = party; next = None } }
    {
        Session { party, next: None }
    }

    // Whose script it carries out.
    pub fn party(&self) -> Agent
        ensures { result ≡ self.now.party }
    {
        self.party
    }
}
