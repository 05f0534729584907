// The line that tells programs of a refusal.
ghost use Rattle.std.specs.Prelude.{Some};
ghost use Rattle.table_words.specs.Refused.{refused_text};

use std::fmt;
use table_text::TextFault;

// `refused`, its number and its place, and behind these the number of the protocol's refusal where there is one.
#[derive(Clone, Copy)]
pub struct RefusedLine(pub TextFault);

impl fmt::Display for RefusedLine {
    ghost output = { λ line. Some (refused_text line.0) };

    fn fmt<W: fmt::Write>(&self, f: &mut fmt::Formatter<W>) -> fmt::Result {
        let fault = self.0;
        write!(f, "refused {} {}", fault.number(), fault.place())?;
        match fault {
            TextFault::Protocol(refusal, _) => write!(f, " {}", refusal.number()),
            TextFault::TooLong | TextFault::Token(_) => Ok(()),
        }
    }
}
