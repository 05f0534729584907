// What one party does in a run at a time.
ghost use Rattle.std.specs.Prelude.{◌≡◌, ◌+◌, ◌-◌, ◌≤◌, IfOk, slice_index};
ghost use Rattle.protocol.specs.View.{lines_of, view_of};
ghost use Rattle.runs.specs.Memory.{base_of};
ghost use Rattle.runs.specs.Tasks.{Hands, Handles, start_task, task_in, send_task, receive_task, outcome_of};
ghost use Rattle.runs.specs.Whole.{DoesOf};
ghost use Rattle.terms.specs.Listed.{listed};

use crate::fault::{BEFORE_STEPS, RunFault};
use crate::memory::base_of;
use acting::{Halt, Part, SessionRefusal, carry_out};
use protocol::{Agent, Protocol, Step};
use provider::{Handle, Provider};

// What a part of a script is carried out for. To receive is to be handed the sender's name, and the message in the last slot that
// the sender has done.
#[derive(Clone, Copy)]
pub(crate) enum Role {
    Start,
    Send,
    Receive { sender: Agent, sent: usize },
}

// A part of a party's script, in a step or before the first.
#[derive(Clone, Copy)]
pub(crate) struct Task {
    pub(crate) step: usize,
    pub(crate) party: Agent,
    pub(crate) start: usize,
    pub(crate) end: usize,
    pub(crate) role: Role,
}

impl Task {
    // What a party does before the first step.
    pub(crate) fn start(protocol: &Protocol, party: Agent) -> Task
        ensures { result ≡ start_task (view_of protocol.now) party }
    {
        Task {
            step: BEFORE_STEPS,
            party,
            start: 0,
            end: protocol.initial(party),
            role: Role::Start,
        }
    }

    // What a party does in a step up to a place.
    fn in_step(protocol: &Protocol, number: usize, party: Agent, end: usize, role: Role) -> Task
        ensures { result ≡ task_in (view_of protocol.now) number party end role }
    {
        Task {
            step: number,
            party,
            start: protocol.begin(number, party),
            end,
            role,
        }
    }

    // What the sender does in a step.
    pub(crate) fn send(protocol: &Protocol, number: usize, step: Step) -> Task
        ensures { result ≡ send_task (view_of protocol.now) number step }
    {
        Task::in_step(protocol, number, step.sender, step.sent, Role::Send)
    }

    // What the receiver does in a step.
    pub(crate) fn receive(protocol: &Protocol, number: usize, step: Step) -> Task
        ensures { result ≡ receive_task (view_of protocol.now) number step }
    {
        let role = Role::Receive {
            sender: step.sender,
            sent: step.sent,
        };
        Task::in_step(protocol, number, step.receiver, step.received, role)
    }

    // What comes of it, from what came of its part of the script.
    fn outcome(self, done: Result<usize, Halt>) -> Result<usize, RunFault>
        ensures { result ≡ outcome_of self done }
    {
        done.map_err(|halt| RunFault {
            refusal: SessionRefusal::from(halt),
            step: self.step,
            party: self.party,
        })
    }
}

// The reading of a party's name; 0 where it has none.
fn name_reading(protocol: &Protocol, readings: &[Handle], party: Agent) -> Handle
    ensures { Handles (listed protocol.now.terms) readings.now party result }
{
    protocol
        .name_of(party)
        .and_then(|name| readings.get(name).copied())
        .unwrap_or(0)
}

// The last handle that a party has put when it has done so many instructions; 0 where there is none.
fn last_put(protocol: &Protocol, slots: &[Handle], party: Agent, done: usize) -> Handle
    ensures { result ≡ slice_index slots.now (base_of (lines_of protocol.now) party + (done - 1)) }
{
    slots
        .get(base_of(protocol, party)..)
        .and_then(|own| own.get(done.saturating_sub(1)).copied())
        .unwrap_or(0)
}

// What a party is handed.
fn part_of(protocol: &Protocol, readings: &[Handle], slots: &[Handle], role: Role) -> Part
    ensures { Hands (listed protocol.now.terms) (lines_of protocol.now) readings.now slots.now role result }
{
    match role {
        Role::Start => Part::Start,
        Role::Send => Part::Send,
        Role::Receive { sender, sent } => Part::Receive {
            from: name_reading(protocol, readings, sender),
            message: last_put(protocol, slots, sender, sent),
        },
    }
}

// Carries out a task, and answers how many comparisons were done. A party without a script does nothing.
pub(crate) fn perform<P: Provider>(
    protocol: &Protocol,
    provider: &mut P,
    readings: &[Handle],
    slots: &mut [Handle],
    task: Task,
) -> Result<usize, RunFault>
    ensures whole { DoesOf P.algebra P.meaning protocol.now readings.now task provider.old slots.old result provider.new slots.new }
    ensures few { IfOk result (λ n. n ≤ 512) }
{
    let part = part_of(protocol, readings, slots, task.role);
    let base = base_of(protocol, task.party);
    let Some(script) = protocol.script(task.party) else {
        return Ok(0);
    };
    let done = carry_out(
        provider,
        readings,
        slots,
        base,
        script,
        task.start..task.end,
        part,
    );
    task.outcome(done)
}
