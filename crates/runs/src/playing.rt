// Whole runs. The protocol, the provider, the readings and the slots are lent one by one: in a struct, each method would have to say
// that the protocol and the readings stay.
ghost use Rattle.std.specs.Prelude.{◌++◌, ◌≤◌, IfOk};
ghost use Rattle.protocol.specs.View.{view_of};
ghost use Rattle.runs.specs.Tasks.{both_tasks};
ghost use Rattle.runs.specs.Runs.{Refused};
ghost use Rattle.runs.specs.Whole.{EnoughOf, TasksOf, RunsOf, RanOf, RestKeptOf, RunLawOf, starts_of, steps_tasks_of};

use crate::fault::{Played, RunFault};
use crate::memory::is_enough;
use crate::task::{Task, perform};
use acting::{SessionRefusal, load};
use protocol::{Protocol, Step};
use provider::{Handle, Provider};

// Starts every party by number, and answers how many comparisons were done.
fn start_parties<P: Provider>(
    protocol: &Protocol,
    provider: &mut P,
    readings: &[Handle],
    slots: &mut [Handle],
) -> Result<usize, RunFault>
    ensures whole { TasksOf P.algebra P.meaning protocol.now readings.now (starts_of protocol.now) provider.old slots.old result provider.new slots.new }
    ensures few { IfOk result (λ n. n ≤ 4096) }
{
    let mut sames = 0;
    for party in 1..protocol.agents() {
        let task = Task::start(protocol, party);
        sames += perform(protocol, provider, readings, slots, task)?;
    }
    Ok(sames)
}

// Plays a step: its sender's part, then its receiver's.
fn play_step<P: Provider>(
    protocol: &Protocol,
    provider: &mut P,
    readings: &[Handle],
    slots: &mut [Handle],
    number: usize,
    step: &Step,
) -> Result<usize, RunFault>
    ensures whole { TasksOf P.algebra P.meaning protocol.now readings.now (both_tasks (view_of protocol.now) number step.now) provider.old slots.old result provider.new slots.new }
    ensures few { IfOk result (λ n. n ≤ 1024) }
{
    let send = Task::send(protocol, number, *step);
    let sent = perform(protocol, provider, readings, slots, send)?;
    let receive = Task::receive(protocol, number, *step);
    let received = perform(protocol, provider, readings, slots, receive)?;
    Ok(sent + received)
}

// Plays every step in order, and answers how many comparisons were done.
fn play_steps<P: Provider>(
    protocol: &Protocol,
    provider: &mut P,
    readings: &[Handle],
    slots: &mut [Handle],
) -> Result<usize, RunFault>
    ensures whole { TasksOf P.algebra P.meaning protocol.now readings.now (steps_tasks_of protocol.now) provider.old slots.old result provider.new slots.new }
    ensures few { IfOk result (λ n. n ≤ 65536) }
{
    let mut sames = 0;
    for (number, step) in protocol.granted_steps().iter().enumerate() {
        sames += play_step(protocol, provider, readings, slots, number, step)?;
    }
    Ok(sames)
}

// Starts every party and plays every step, and answers how many comparisons were done.
fn play_all<P: Provider>(
    protocol: &Protocol,
    provider: &mut P,
    readings: &[Handle],
    slots: &mut [Handle],
) -> Result<usize, RunFault>
    ensures { TasksOf P.algebra P.meaning protocol.now readings.now (starts_of protocol.now ++ steps_tasks_of protocol.now) provider.old slots.old result provider.new slots.new }
{
    let started = start_parties(protocol, provider, readings, slots)?;
    let played = play_steps(protocol, provider, readings, slots)?;
    Ok(started + played)
}

// Loads every term, and then plays all.
fn load_and_play<P: Provider>(
    protocol: &Protocol,
    provider: &mut P,
    readings: &mut [Handle],
    slots: &mut [Handle],
) -> Result<Played, RunFault>
    ensures { RunsOf P.algebra P.meaning protocol.now provider.old readings.old slots.old result provider.new readings.new slots.new }
{
    load(provider, protocol.terms(), readings).map_err(SessionRefusal::from)?;
    let sames = play_all(protocol, provider, readings, slots)?;
    Ok(Played {
        steps: protocol.steps(),
        sames,
    })
}

// The run, unless there is too little memory for it.
fn try_run<P: Provider>(
    protocol: &Protocol,
    provider: &mut P,
    readings: &mut [Handle],
    slots: &mut [Handle],
) -> Result<Played, RunFault>
    ensures { RanOf P.algebra P.meaning protocol.now provider.old readings.old slots.old result provider.new readings.new slots.new }
{
    if is_enough(protocol, readings, slots) {
        load_and_play(protocol, provider, readings, slots)
    } else {
        Err(SessionRefusal::NoMemory.into())
    }
}

// Runs the protocol on a provider. The readings need a place for every term, and the slots one for every instruction of the parties.
pub fn run<P: Provider>(
    protocol: &Protocol,
    provider: &mut P,
    readings: &mut [Handle],
    slots: &mut [Handle],
) -> Result<Played, RunFault>
    ensures whole { RanOf P.algebra P.meaning protocol.now provider.old readings.old slots.old result provider.new readings.new slots.new }
    ensures memory { (EnoughOf protocol.now readings.old slots.old → ⊥) → Refused provider.old readings.old slots.old result provider.new readings.new slots.new }
    ensures keeps { RestKeptOf P.meaning protocol.now provider.old readings.old slots.old provider.new readings.new slots.new }
    ensures law { RunLawOf P.algebra P.meaning protocol.now readings.old slots.old result provider.new readings.new slots.new }
{
    try_run(protocol, provider, readings, slots)
}
