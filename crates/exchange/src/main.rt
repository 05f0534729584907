// Compiles a table on standard input: lists the scripts of all agents on standard output, from the listener's on, or says there where
// and why the table is refused, and for people once more, in a sentence, on standard error.

#![tactic(auto)]

mod printing;

ghost use Rattle.std.specs.Prelude.{OnOk};
ghost use Rattle.exchange.specs.Printed.{Compiled};

use names::Names;
use printing::write_answer;
use protocol::Protocol;
use std::io;
use std::io::{BufWriter, Read, Write};
use table_text::read_lines;
use table_words::Table;

// A text of so many bytes is too long, whatever stands behind them.
const ENOUGH: u64 = 32769;

// Reads a text, and writes what came of it.
fn compile<O: Write, E: Write>(text: &[u8], out: &mut O, people: &mut E) -> io::Result<()>
    ensures { OnOk result (Compiled text.now (O.contents out.old) (O.contents out.new)) }
{
    let mut protocol = Protocol::blank();
    let mut names = Names::new();
    let read = read_lines(&mut protocol, &mut names, text);
    let table = Table {
        protocol: &protocol,
        names: &names,
    };
    write_answer(text, read, table, out, people)
}

fn main(rt: HostRuntime) -> io::Result<()> {
    let mut text = Vec::new(rt.alloc());
    rt.stdin().take(ENOUGH).read_to_end(&mut text)?;
    let mut out = BufWriter::new(rt.alloc(), rt.stdout())?;
    compile(text.as_slice(), &mut out, &mut rt.stderr())?;
    out.flush()
}
