// Plays the largest tables, which are those that take longest: 500 nested pairs, scripts of some 500 instructions, a full table with
// 64 steps. It prints how far each came; the time that all take is that of one run.

#![tactic(auto)]

mod tables;

use protocol::{Protocol, Refusal};
use std::io;
use tables::{full_table, late_keys, nested_knowledge, nested_message};

// How long the agents' scripts are, or why the table is refused.
fn print_table(
    rt: &HostRuntime,
    title: &str,
    protocol: &Protocol,
    made: Result<(), Refusal>,
) -> io::Result<()> {
    println!(rt;
        "{title}: {} terms, {} steps",
        protocol.terms().len(),
        protocol.steps()
    )?;
    if let Err(refusal) = made {
        println!(rt;
            "  refused {} {}",
            refusal.number(),
            refusal.value().unwrap_or(0)
        )?;
    }
    for agent in 0..protocol.agents() {
        let length = protocol.script(agent).map_or(0, |script| script.len());
        println!(rt; "  agent {agent}: {length} instructions")?;
    }
    Ok(())
}

fn main(rt: HostRuntime) -> io::Result<()> {
    let mut protocol = Protocol::blank();
    let made = nested_knowledge(&mut protocol);
    print_table(
        &rt,
        "500 nested pairs as initial knowledge",
        &protocol,
        made,
    )?;
    protocol = Protocol::blank();
    let made = nested_message(&mut protocol);
    print_table(&rt, "500 nested pairs as a message", &protocol, made)?;
    protocol = Protocol::blank();
    let made = late_keys(&mut protocol);
    print_table(
        &rt,
        "80 sealed numbers, then all their keys",
        &protocol,
        made,
    )?;
    protocol = Protocol::blank();
    let made = full_table(&mut protocol);
    print_table(&rt, "seven parties, 64 steps", &protocol, made)
}
