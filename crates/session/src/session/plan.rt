// What a call is to carry out, or why it is refused.
ghost use Rattle.std.specs.Prelude.{◌≡◌, ◌<◌, IfOk};
ghost use Rattle.protocol.specs.View.{view_of};
ghost use Rattle.session.specs.Plans.{Readied, next_step, turn_of, part_work, start_work, send_work, receive_work};

use crate::session::Session;
use crate::turn::next_step;
use crate::work::Work;
use acting::{Part, SessionRefusal};
use protocol::{Agent, LISTENER, Protocol, Step};
use provider::Handle;
use scripts::Script;

impl Session {
    // The party's script, if it is a party and there is memory enough.
    pub(super) fn ready<'a>(
        self,
        protocol: &'a Protocol,
        readings: usize,
        slots: usize,
    ) -> Result<&'a Script, SessionRefusal>
        ensures { Readied protocol.now self.party readings slots result }
    {
        if self.party == LISTENER {
            return Err(SessionRefusal::NoParty);
        }
        let script = protocol.script(self.party).ok_or(SessionRefusal::NoParty)?;
        if readings < protocol.terms().len() || slots < script.len() {
            return Err(SessionRefusal::NoMemory);
        }
        Ok(script)
    }

    // The party's next step with its number; none before the start.
    fn next_step(self, protocol: &Protocol) -> Result<(usize, Step), SessionRefusal>
        ensures is { result ≡ turn_of (next_step protocol.now self.party self.next) }
        ensures few { IfOk result (λ x. x.0 < 64) }
    {
        self.next
            .and_then(|number| next_step(protocol, number, self.party))
            .ok_or(SessionRefusal::NotItsTurn)
    }

    // A part of a step, which an agent carries out up to a place, if that is the party.
    fn part_of(
        self,
        protocol: &Protocol,
        number: usize,
        agent: Agent,
        end: usize,
        part: Part,
    ) -> Result<Work, SessionRefusal>
        requires { number < 64 }
        ensures { result ≡ part_work (view_of protocol.now) self.party number agent end part }
    {
        if agent != self.party {
            return Err(SessionRefusal::NotItsTurn);
        }
        Ok(Work {
            start: protocol.begin(number, agent),
            end,
            part,
            next: number + 1,
        })
    }

    // To start: what precedes the party's first step.
    pub(super) fn starting(self, protocol: &Protocol) -> Result<Work, SessionRefusal>
        ensures { result ≡ start_work protocol.now self.party self.next }
    {
        match self.next {
            None => Ok(Work {
                start: 0,
                end: protocol.initial(self.party),
                part: Part::Start,
                next: 0,
            }),
            Some(_) => Err(SessionRefusal::NotItsTurn),
        }
    }

    // To send: the sender's part of the next step.
    pub(super) fn sending(self, protocol: &Protocol) -> Result<Work, SessionRefusal>
        ensures { result ≡ send_work protocol.now self.party self.next }
    {
        let (number, step) = self.next_step(protocol)?;
        self.part_of(protocol, number, step.sender, step.sent, Part::Send)
    }

    // To receive: the receiver's part of the next step, with what is handed to it.
    pub(super) fn receiving(
        self,
        protocol: &Protocol,
        from: Handle,
        message: Handle,
    ) -> Result<Work, SessionRefusal>
        ensures { result ≡ receive_work from message protocol.now self.party self.next }
    {
        let (number, step) = self.next_step(protocol)?;
        let part = Part::Receive { from, message };
        self.part_of(protocol, number, step.receiver, step.received, part)
    }
}
