// The loop over the lines of a text.
ghost use Rattle.std.specs.Prelude.{◌≡◌, ◌<◌, ◌↔◌, IsTrue, length, OnOk};
ghost use Rattle.bounded.specs.Items.{items};
ghost use Rattle.scan.specs.Tokens.{pos_of, text_of};
ghost use Rattle.names.specs.Names.{known};
ghost use Rattle.protocol.specs.View.{view_of};
ghost use Rattle.table_text.specs.Ahead.{Roomy};
ghost use Rattle.table_text.specs.Law.{TextLaw};
ghost use Rattle.table_text.specs.Lines.{Declarable, ReadsNext};
ghost use Rattle.table_text.specs.Tables.{Reads, ReadsTable};

use crate::fault::{TextFault, placed};
use crate::line::read_line;
use crate::pairing::Parts;
use names::Names;
use protocol::Protocol;
use scan::Scanner;

// The longest text, in bytes.
const LONGEST: usize = 32768;

fn is_too_long(text: &[u8]) -> bool
    ensures { IsTrue result ↔ (32768 < length text.now) }
{
    text.len() > LONGEST
}

// Reads the line that comes next. A refused call has the place where its line begins.
fn read_next<'a>(
    scanner: &mut Scanner<'a>,
    names: &mut Names<'a>,
    protocol: &mut Protocol,
    parts: &mut Parts,
) -> Result<(), TextFault>
    ensures text { text_of scanner.new ≡ text_of scanner.old }
    ensures reads { Roomy (text_of scanner.old) (items parts.old) (pos_of scanner.old) → Declarable (known names.old) (view_of protocol.old)
        → ReadsNext (known names.old) (text_of scanner.old) (pos_of scanner.old) (view_of protocol.old) result (pos_of scanner.new) (known names.new) (view_of protocol.new)
        × OnOk result (items parts.new ≡ items parts.old) }
{
    let line = scanner.pos();
    match read_line(scanner, names, protocol, parts) {
        Ok(()) => Ok(()),
        Err(fault) => Err(placed(fault, line)),
    }
}

// Reads the lines of a text into a blank protocol and an empty list of names. A refusal leaves what was done before it.
pub fn read_lines<'a>(
    protocol: &mut Protocol,
    names: &mut Names<'a>,
    text: &'a [u8],
) -> Result<(), TextFault>
    ensures { Reads text.now result (known names.new) (view_of protocol.new) }
{
    *protocol = Protocol::blank();
    *names = Names::new();
    if is_too_long(text) {
        return Err(TextFault::TooLong);
    }
    let mut scanner = Scanner::new(text);
    let mut parts = Parts::new(0);
    while scanner.pos() < text.len() {
        read_next(&mut scanner, names, protocol, &mut parts)?;
    }
    Ok(())
}

// Reads a table into a blank protocol, and answers the number of its steps. A refusal leaves the protocol blank.
pub fn read_table(protocol: &mut Protocol, text: &[u8]) -> Result<usize, TextFault>
    ensures reads { ReadsTable text.now result (view_of protocol.new) }
    ensures law { TextLaw text.now result }
{
    let mut names = Names::new();
    match read_lines(protocol, &mut names, text) {
        Ok(()) => Ok(protocol.steps()),
        Err(fault) => {
            *protocol = Protocol::blank();
            Err(fault)
        }
    }
}
