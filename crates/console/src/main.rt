// Drives a protocol, a crypto provider and sessions from standard input: one call a line, and one answer line for each.
//
// A line is words parted by single spaces, with numbers in decimal. A line that is no call, whose call needs a provider before one is
// chosen, or that names a session which is not there, is answered by `unread`; an empty line by nothing.

#![tactic(auto)]

use console::Console;
use std::io;
use std::io::{BufRead, BufReader, BufWriter, Write};

mod answer;
mod console;
mod session_state;
mod workspace;

fn main(rt: HostRuntime) -> io::Result<()> {
    let mut console = Console::new();
    let mut out = BufWriter::new(rt.alloc(), rt.stdout())?;
    for line in BufReader::new(rt.alloc(), rt.stdin())?.split(rt.alloc(), b'\n') {
        let line = line?;
        if !line.is_empty() {
            let answer = console.answer_line(line.as_slice());
            console.write(answer, &mut out)?;
        }
    }
    out.flush()
}
