// A session with slots of its own.
ghost use Rattle.std.specs.Prelude.{◌≡◌};
ghost use Rattle.console.specs.Sessions.{Turned, opened};

use crate::answer::Answer;
use console_calls::Turn;
use protocol::{Agent, Protocol};
use provider::{Handle, Provider};
use session::Session;

#[derive(Clone, Copy)]
pub struct SessionState {
    session: Session,
    slots: [Handle; 512],
}

impl SessionState {
    // A session that has not started, with all slots 0.
    pub fn new(party: Agent) -> SessionState
        ensures { result ≡ opened party }
    {
        SessionState {
            session: Session::new(party),
            slots: [0; 512],
        }
    }

    // Takes a turn on the first slots, as many as are lent.
    pub fn take_turn<P: Provider>(
        &mut self,
        protocol: &Protocol,
        provider: &mut P,
        readings: &[Handle],
        lent: usize,
        turn: Turn,
    ) -> Answer
        ensures { Turned P.algebra P.meaning protocol.now readings.now lent turn self.old provider.old result self.new provider.new }
    {
        let lent = lent.min(512);
        let mut session = self.session;
        let slots = &mut self.slots[..lent];
        let answer = match turn {
            Turn::Start => Answer::Counted(session.start(protocol, provider, readings, slots)),
            Turn::Send => Answer::Sent(session.send(protocol, provider, readings, slots)),
            Turn::Receive(from, message) => {
                Answer::Counted(session.receive(protocol, provider, readings, slots, from, message))
            }
        };
        self.session = session;
        answer
    }
}
