// The sentence that tells a person of a refusal.
ghost use Rattle.std.specs.Prelude.{◌≡◌};

use crate::notation::Table;
use crate::place::Place;
use crate::protocol_faults::RefusedCalls;
use crate::statement::Statement;
use crate::token_faults::{
    write_declared_twice, write_outside_grammar, write_too_deep, write_undeclared,
};
use line_check::{LineError, LineFault};
use std::fmt;
use table_text::TextFault;

// A refused text, with what it had made at the refusal. It is printed as one sentence: line and column, what is
// wrong, and what would mend it.
#[derive(Clone, Copy)]
pub struct Explanation<'a> {
    statement: Statement<'a>,
    fault: TextFault,
}

impl<'a> Explanation<'a> {
    pub fn new(text: &'a [u8], fault: TextFault, table: Table<'a>) -> Explanation<'a>
        ensures { result.fault ≡ fault }
    {
        let statement = Statement { text, table };
        Explanation { statement, fault }
    }

    fn write_token_fault<W: fmt::Write>(
        self,
        f: &mut fmt::Formatter<W>,
        error: LineError,
    ) -> fmt::Result {
        match error.fault {
            LineFault::Outside => write_outside_grammar(f, self.statement, error.place),
            LineFault::Undeclared => write_undeclared(f, self.statement, error.place),
            LineFault::DeclaredTwice => write_declared_twice(f, self.statement, error.place),
            LineFault::TooDeep => write_too_deep(f),
        }
    }
}

impl fmt::Display for Explanation<'_> {
    fn fmt<W: fmt::Write>(&self, f: &mut fmt::Formatter<W>) -> fmt::Result {
        let place = Place::of(self.statement.text, self.fault.place());
        write!(f, "line {}, column {}: ", place.line, place.column)?;
        match self.fault {
            TextFault::TooLong => write!(
                f,
                "the table is longer than 32768 bytes, and here is the first too many: write a shorter one"
            )?,
            TextFault::Token(error) => self.write_token_fault(f, error)?,
            TextFault::Protocol(refusal, begin) => {
                let calls = RefusedCalls {
                    statement: self.statement,
                    begin,
                    refusal,
                };
                write!(f, "{calls}")?;
            }
        }
        write!(f, ".")
    }
}
