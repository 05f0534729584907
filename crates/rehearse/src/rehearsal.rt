// Printing what each party does in a run, action by action, in the order in which it is done.
use crate::action::Action;
use byte_provider::ByteProvider;
use protocol::{Agent, Step};
use provider::Handle;
use runs::base_of;
use std::io;
use std::io::Write;
use std::ops::Range;
use table_words::Table;

// The most bytes of a value that are shown.
const SHOWN: usize = 128;

// A run that was played: its table, its provider, and what the slots of its parties hold.
#[derive(Clone, Copy)]
pub(crate) struct Rehearsal<'a> {
    pub(crate) table: Table<'a>,
    pub(crate) provider: &'a ByteProvider,
    pub(crate) slots: &'a [Handle],
}

impl<'a> Rehearsal<'a> {
    // What each party does before its first step.
    pub(crate) fn write_starts<W: Write>(self, out: &mut W) -> io::Result<()> {
        let protocol = self.table.protocol;
        writeln!(out, "before the first step")?;
        for party in 1..protocol.agents() {
            self.write_part(party, 0..protocol.initial(party), out)?;
        }
        Ok(())
    }

    // Each step: what its sender does, then its receiver.
    pub(crate) fn write_steps<W: Write>(self, out: &mut W) -> io::Result<()> {
        for (number, step) in self.table.protocol.granted_steps().iter().enumerate() {
            self.write_step(number, *step, out)?;
        }
        Ok(())
    }

    fn write_step<W: Write>(self, number: usize, step: Step, out: &mut W) -> io::Result<()> {
        let protocol = self.table.protocol;
        writeln!(
            out,
            "step {number}: {} to {}: {}",
            self.table.agent(step.sender),
            self.table.agent(step.receiver),
            self.table.term(step.message)
        )?;
        let sending = protocol.begin(number, step.sender)..step.sent;
        self.write_part(step.sender, sending, out)?;
        let receiving = protocol.begin(number, step.receiver)..step.received;
        self.write_part(step.receiver, receiving, out)
    }

    // The actions in a range of an agent's script, with the bytes that came of each.
    fn write_part<W: Write>(
        self,
        agent: Agent,
        range: Range<usize>,
        out: &mut W,
    ) -> io::Result<()> {
        let Some(script) = self.table.protocol.script(agent) else {
            return Ok(());
        };
        let base = base_of(self.table.protocol, agent);
        let name = self.table.agent(agent);
        let lines = script.lines().iter().enumerate();
        for (slot, line) in lines.take(range.end).skip(range.start) {
            let action = Action {
                table: self.table,
                script,
                line: *line,
            };
            write!(out, "  {name}: {slot}: {action}:")?;
            self.write_bytes(base.saturating_add(slot), out)?;
        }
        Ok(())
    }

    // The bytes that the handle in a slot stands for.
    fn write_bytes<W: Write>(self, slot: usize, out: &mut W) -> io::Result<()> {
        let handle = self.slots.get(slot).copied().unwrap_or(0);
        let mut bytes = [0; 32768];
        let len = self.provider.read(handle, &mut bytes).unwrap_or(0);
        for byte in bytes.iter().take(len.min(SHOWN)) {
            write!(out, " {byte}")?;
        }
        if len > SHOWN {
            write!(out, " and {} more", len - SHOWN)?;
        }
        writeln!(out)
    }
}
