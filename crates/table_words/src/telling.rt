// Telling programs and people that a table is refused.
ghost use Rattle.std.specs.Prelude.{[], ◌∷◌, ◌++◌, OnOk};
ghost use Rattle.std.specs.Io.KnownBytes.{Appends};
ghost use Rattle.table_words.specs.Refused.{refused_text};

use crate::explanation::Explanation;
use crate::notation::Table;
use crate::refused::RefusedLine;
use names::Names;
use protocol::Protocol;
use std::io;
use std::io::Write;
use table_text::{TextFault, read_lines};

// Writes the line for programs to the one, and the sentence for people to the other. The text is read once more, since the sentence
// speaks of what stood there at the refusal.
pub fn tell_refusal<O: Write, E: Write>(
    text: &[u8],
    fault: TextFault,
    out: &mut O,
    people: &mut E,
) -> io::Result<()>
    ensures { OnOk result (Appends (O.contents out.old) (O.contents out.new) (refused_text fault ++ 10 ∷ [])) }
{
    let mut protocol = Protocol::blank();
    let mut names = Names::new();
    let _refused = read_lines(&mut protocol, &mut names, text);
    let table = Table {
        protocol: &protocol,
        names: &names,
    };
    writeln!(out, "{}", RefusedLine(fault))?;
    writeln!(people, "{}", Explanation::new(text, fault, table))
}
