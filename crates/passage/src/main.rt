// Rehearses how a passage plan goes out: a shore station seals the plan under a key that it shares with a pilot's unit,
// the unit opens it and compares it with the station's plan, and a unit with another key does not get it.

#![tactic(auto)]

mod passage;

use byte_provider::ByteProvider;
use passage::{LEGS, Rehearsal, rehearse};
use provider::{Handle, Provider};
use std::io;
use symbolic_provider::SymbolicProvider;

// The bytes that a handle stands for, as a listener on the radio would hear them.
fn print_bytes(rt: &HostRuntime, provider: &ByteProvider, handle: Handle) -> io::Result<()> {
    let mut bytes = [0; 64];
    match provider.read(handle, &mut bytes) {
        Ok(n) => {
            print!(rt; "on the air: {n} bytes:")?;
            for byte in bytes.iter().take(n) {
                print!(rt; " {byte}")?;
            }
            println!(rt; "")
        }
        Err(_) => println!(rt; "on the air: a longer message"),
    }
}

fn print_plan(rt: &HostRuntime) -> io::Result<()> {
    for leg in LEGS.iter() {
        let buoy = leg.buoy;
        let course = leg.course;
        let speed = leg.speed;
        println!(rt; "station: plans to pass buoy {buoy} on course {course} at {speed} knots")?;
    }
    Ok(())
}

// The verdict on what somebody opened.
fn verdict(is_plan: bool) -> &'static str {
    if is_plan {
        "it is the plan"
    } else {
        "it is not the plan"
    }
}

fn print_sealing(rt: &HostRuntime, done: Rehearsal) -> io::Result<()> {
    print_plan(rt)?;
    println!(rt;
        "station: tries its key on the plan: {}",
        verdict(done.tried)
    )?;
    println!(rt; "station: seals the plan under the shared key")
}

fn print_opening(rt: &HostRuntime, done: Rehearsal) -> io::Result<()> {
    println!(rt;
        "unit: opens it with the shared key: {}",
        verdict(done.arrived)
    )?;
    println!(rt; "unit with another key: opens it: {}", verdict(done.leaked))
}

// Rehearses on a provider, and prints what came of it. What a listener hears of the sealed plan is told by `hear`.
fn rehearse_on<P: Provider + Drop, F: Fn(&P, Handle) -> io::Result<()>>(
    rt: &HostRuntime,
    name: &str,
    mut provider: P,
    hear: F,
) -> io::Result<()>
    requires { F.IsAlwaysCallable hear }
{
    println!(rt; "on the {name} provider")?;
    match rehearse(&mut provider) {
        Ok(done) => {
            print_sealing(rt, done)?;
            hear(&provider, done.sealed)?;
            print_opening(rt, done)
        }
        Err(error) => println!(rt; "stopped: {error}"),
    }
}

fn main(rt: HostRuntime) -> io::Result<()> {
    rehearse_on(&rt, "byte", ByteProvider::blank(), |provider, sealed| {
        print_bytes(&rt, provider, sealed)
    })?;
    rehearse_on(&rt, "symbolic", SymbolicProvider::blank(), |_, _| Ok(()))
}
