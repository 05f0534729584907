// Rehearses a table on standard input: runs it on the byte provider, and prints each action in the table's own names: who composes
// what, which bytes go out, what is compared. A table that is refused is told of as `exchange` tells of it.

#![tactic(auto)]

mod action;
mod rehearsal;
mod stop;

use byte_provider::ByteProvider;
use names::Names;
use protocol::Protocol;
use provider::Handle;
use rehearsal::Rehearsal;
use runs::Played;
use std::io;
use std::io::{BufWriter, Read, Write};
use stop::Stop;
use table_run::{TableRunFault, read_and_run};
use table_text::read_lines;
use table_words::{Table, tell_refusal};

// A text of so many bytes is too long, whatever stands behind them.
const ENOUGH: u64 = 32769;

// Each action of a run that was played, and what it came to.
fn write_run<W: Write>(rehearsal: Rehearsal<'_>, played: Played, out: &mut W) -> io::Result<()> {
    rehearsal.write_starts(out)?;
    rehearsal.write_steps(out)?;
    writeln!(
        out,
        "{} steps played, {} values compared",
        played.steps, played.sames
    )
}

// Runs a text, and writes what came of it.
fn rehearse<O: Write, E: Write>(text: &[u8], out: &mut O, people: &mut E) -> io::Result<()> {
    let mut protocol = Protocol::blank();
    let mut provider = ByteProvider::blank();
    let mut readings: [Handle; 512] = [0; 512];
    let mut slots: [Handle; 4096] = [0; 4096];
    let run = read_and_run(
        &mut protocol,
        text,
        &mut provider,
        &mut readings,
        &mut slots,
    );
    let mut named = Protocol::blank();
    let mut names = Names::new();
    // the same text once more, for its names
    let _read = read_lines(&mut named, &mut names, text);
    let table = Table {
        protocol: &protocol,
        names: &names,
    };
    match run {
        Ok(played) => {
            let rehearsal = Rehearsal {
                table,
                provider: &provider,
                slots: &slots,
            };
            write_run(rehearsal, played, out)
        }
        Err(TableRunFault::Text(fault)) => tell_refusal(text, fault, out, people),
        Err(TableRunFault::Run(fault)) => writeln!(out, "{}", Stop { table, fault }),
    }
}

fn main(rt: HostRuntime) -> io::Result<()> {
    let mut text = Vec::new(rt.alloc());
    rt.stdin().take(ENOUGH).read_to_end(&mut text)?;
    let mut out = BufWriter::new(rt.alloc(), rt.stdout())?;
    rehearse(text.as_slice(), &mut out, &mut rt.stderr())?;
    out.flush()
}

#[cfg(test)]
mod tests {
    use super::*;
    use acting::SessionRefusal;
    use runs::RunFault;
    use std::test::Fail;

    // A stop while the terms are loaded, before the first step, and in a step.
    #[test]
    fn stops_in_words(rt: HostRuntime) -> Result<(), Fail> {
        let mut protocol = Protocol::blank();
        let mut names = Names::new();
        assert!(rt; read_lines(&mut protocol, &mut names, b"party U S") == Ok(()));
        let table = Table {
            protocol: &protocol,
            names: &names,
        };
        for (step, party, words) in [
            (
                64,
                0,
                "stopped while the terms are loaded: the provider has no room for what comes next",
            ),
            (
                64,
                2,
                "stopped before the first step at S: the provider has no room for what comes next",
            ),
            (
                5,
                1,
                "stopped in step 5 at U: the provider has no room for what comes next",
            ),
        ] {
            let fault = RunFault {
                refusal: SessionRefusal::ProviderFull(3),
                step,
                party,
            };
            let told = format!(in rt.alloc(); "{}", Stop { table, fault })?;
            assert!(rt; told.as_str() == words);
        }
        Ok(())
    }
}
