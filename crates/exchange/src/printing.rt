// Printing what came of a table.
ghost use Rattle.std.specs.Prelude.{[], ◌∷◌, ◌++◌, OnOk};
ghost use Rattle.std.specs.Io.KnownBytes.{Appends};
ghost use Rattle.protocol.specs.View.{lines_of};
ghost use Rattle.table_words.specs.Refused.{refused_text};
ghost use Rattle.exchange.specs.Printed.{all_listings, listing_at, printed};

use listing::list;
use protocol::{Agent, Protocol};
use std::io;
use std::io::Write;
use table_text::TextFault;
use table_words::{Explanation, RefusedLine, Table};

// A script has at most 512 lines, none of which is longer than `7 511 DIGEST 511 511`.
const LONGEST_LISTING: usize = 512 * 21;

// Writes the listing of an agent's script.
fn write_listing<W: Write>(protocol: &Protocol, agent: Agent, out: &mut W) -> io::Result<()>
    ensures { OnOk result (Appends (W.contents out.old) (W.contents out.new) (listing_at (lines_of protocol.now) agent)) }
{
    let mut text = [0; LONGEST_LISTING];
    match list(protocol, agent, &mut text) {
        Ok(len) => out.write_all(&text[..len]),
        Err(_) => Err(io::Error::other("a script is too long to be listed")),
    }
}

// Writes the listings of all agents, from the listener's on.
fn write_listings<W: Write>(protocol: &Protocol, out: &mut W) -> io::Result<()>
    ensures { OnOk result (Appends (W.contents out.old) (W.contents out.new) (all_listings (lines_of protocol.now))) }
{
    for agent in 0..protocol.agents() {
        write_listing(protocol, agent, out)?;
    }
    Ok(())
}

// Writes why a text is refused: a line for programs, and a sentence for people, which speaks of what stood there at the refusal.
fn write_refusal<O: Write, E: Write>(
    text: &[u8],
    fault: TextFault,
    table: Table<'_>,
    out: &mut O,
    people: &mut E,
) -> io::Result<()>
    ensures { OnOk result (Appends (O.contents out.old) (O.contents out.new) (refused_text fault ++ 10 ∷ [])) }
{
    writeln!(out, "{}", RefusedLine(fault))?;
    writeln!(people, "{}", Explanation::new(text, fault, table))
}

// Writes what came of a text: the listings of the protocol that was read, or why the text is refused.
pub(crate) fn write_answer<O: Write, E: Write>(
    text: &[u8],
    read: Result<(), TextFault>,
    table: Table<'_>,
    out: &mut O,
    people: &mut E,
) -> io::Result<()>
    ensures { OnOk result (Appends (O.contents out.old) (O.contents out.new) (printed read (lines_of table.entry.protocol.now))) }
{
    match read {
        Ok(()) => write_listings(table.protocol, out),
        Err(fault) => write_refusal(text, fault, table, out, people),
    }
}
