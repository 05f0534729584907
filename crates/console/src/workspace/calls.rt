// The calls on a workspace.
ghost use Rattle.console.specs.Workspaces.{Acts, Blank, LentIf, LoadsOn, Opens, RunsOn, TurnOf};

use super::{Lent, Workspace};
use crate::answer::Answer;
use crate::session_state::SessionState;
use bounded::BoundedVec;
use console_calls::{Act, Turn};
use protocol::{Agent, Protocol};
use provider::Provider;
use runs::run;
use session::load;

impl Workspace {
    // All readings are 0, there is no session, and everything is lent.
    pub fn blank() -> Workspace
        ensures { Blank result }
    {
        Workspace {
            readings: [0; 512],
            sessions: BoundedVec::new(SessionState::new(0)),
            lent: Lent {
                readings: 512,
                slots: 4096,
            },
        }
    }

    // Lends so many readings and slots from now on; none where there are not as many.
    pub fn lend(&mut self, readings: usize, slots: usize) -> Option<Answer>
        ensures { LentIf readings slots self.old result self.new }
    {
        if readings > 512 || slots > 4096 {
            return None;
        }
        self.lent = Lent { readings, slots };
        Some(Answer::Done)
    }

    // Opens a session of a party; none where there are sixteen.
    pub fn open_session(&mut self, party: Agent) -> Option<Answer>
        ensures { Opens party self.old result self.new }
    {
        let number = self.sessions.push(SessionState::new(party)).ok()?;
        Some(Answer::Number(number))
    }

    fn load<P: Provider>(&mut self, protocol: &Protocol, provider: &mut P) -> Answer
        ensures { LoadsOn P.algebra P.meaning protocol.now self.old provider.old result self.new provider.new }
    {
        let lent = self.lent.readings;
        Answer::Counted(load(protocol, provider, &mut self.readings[..lent]))
    }

    // A run on slots of its own, all 0.
    fn run<P: Provider>(&mut self, protocol: &Protocol, provider: &mut P) -> Answer
        ensures { RunsOn P.algebra P.meaning protocol.now self.old provider.old result self.new provider.new }
    {
        let mut slots = [0; 4096];
        let lent = self.lent;
        Answer::Run(run(
            protocol,
            provider,
            &mut self.readings[..lent.readings],
            &mut slots[..lent.slots],
        ))
    }

    // A session's turn; none where there is no such session.
    fn take_turn<P: Provider>(
        &mut self,
        protocol: &Protocol,
        provider: &mut P,
        number: usize,
        turn: Turn,
    ) -> Option<Answer>
        ensures { TurnOf P.algebra P.meaning protocol.now number turn self.old provider.old result self.new provider.new }
    {
        let mut session = self.sessions.get(number)?;
        let lent = self.lent;
        let readings = &self.readings[..lent.readings];
        let answer = session.take_turn(protocol, provider, readings, lent.slots, turn);
        self.sessions.replace(number, session);
        Some(answer)
    }

    // What the protocol and a provider do together.
    pub fn act<P: Provider>(
        &mut self,
        protocol: &Protocol,
        provider: &mut P,
        act: Act,
    ) -> Option<Answer>
        ensures { Acts P.algebra P.meaning protocol.now act self.old provider.old result self.new provider.new }
    {
        match act {
            Act::Load => Some(self.load(protocol, provider)),
            Act::Session(number, turn) => self.take_turn(protocol, provider, number, turn),
            Act::Run => Some(self.run(protocol, provider)),
        }
    }
}
