// The calls of a session.
ghost use Rattle.scripts.specs.View.{written};
ghost use Rattle.session.specs.Outcome.{Carried, Starts, Sends, Receives};

use crate::sent::sent_by;
use crate::session::Session;
use crate::work::Work;
use acting::{Halt, SessionRefusal, carry_out};
use protocol::Protocol;
use provider::{Handle, Provider};
use scripts::Script;

impl Session {
    // Carries out a work on the party's script, and answers how many comparisons were done.
    fn perform<P: Provider>(
        &mut self,
        script: &Script,
        provider: &mut P,
        readings: &[Handle],
        slots: &mut [Handle],
        work: Work,
    ) -> Result<usize, Halt>
        ensures { Carried P.algebra P.meaning readings.now (written script.now) work self.old provider.old slots.old result self.new provider.new slots.new }
    {
        let sames = carry_out(
            provider,
            readings,
            slots,
            0,
            script,
            work.start..work.end,
            work.part,
        )?;
        self.next = Some(work.next);
        Ok(sames)
    }

    // Carries out what precedes the party's first step, and answers how many instructions that is.
    pub fn start<P: Provider>(
        &mut self,
        protocol: &Protocol,
        provider: &mut P,
        readings: &[Handle],
        slots: &mut [Handle],
    ) -> Result<usize, SessionRefusal>
        ensures { Starts P.algebra P.meaning protocol.now readings.now self.old provider.old slots.old result self.new provider.new slots.new }
    {
        let script = self.ready(protocol, readings.len(), slots.len())?;
        let work = self.starting(protocol)?;
        self.perform(script, provider, readings, slots, work)?;
        Ok(work.end)
    }

    // Carries out the sender's part of the party's next step, and answers the handles of the message and of the receiver's name.
    pub fn send<P: Provider>(
        &mut self,
        protocol: &Protocol,
        provider: &mut P,
        readings: &[Handle],
        slots: &mut [Handle],
    ) -> Result<(Handle, Handle), SessionRefusal>
        ensures { Sends P.algebra P.meaning protocol.now readings.now self.old provider.old slots.old result self.new provider.new slots.new }
    {
        let script = self.ready(protocol, readings.len(), slots.len())?;
        let work = self.sending(protocol)?;
        self.perform(script, provider, readings, slots, work)?;
        Ok(sent_by(script, work.end, slots))
    }

    // Carries out the receiver's part of the party's next step, handed the sender's name and the message, and answers how many
    // comparisons were done.
    pub fn receive<P: Provider>(
        &mut self,
        protocol: &Protocol,
        provider: &mut P,
        readings: &[Handle],
        slots: &mut [Handle],
        from: Handle,
        message: Handle,
    ) -> Result<usize, SessionRefusal>
        ensures { Receives P.algebra P.meaning protocol.now readings.now from message self.old provider.old slots.old result self.new provider.new slots.new }
    {
        let script = self.ready(protocol, readings.len(), slots.len())?;
        let work = self.receiving(protocol, from, message)?;
        Ok(self.perform(script, provider, readings, slots, work)?)
    }
}
