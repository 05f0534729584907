// Sentences on a line that the protocol refuses.
use crate::misuse::first_misuse;
use crate::statement::Statement;
use crate::tokens::next_word;
use crate::word::Word;
use protocol::{Agent, Refusal};
use scan::Scanner;
use std::fmt;
use terms::TermId;

// The line that is refused.
#[derive(Clone, Copy)]
pub(crate) struct RefusedCalls<'a> {
    pub(crate) statement: Statement<'a>,
    pub(crate) begin: usize,
    pub(crate) refusal: Refusal,
}

impl<'a> RefusedCalls<'a> {
    // The words behind the first token.
    fn words(self) -> Scanner<'a> {
        let mut scanner = self.statement.from(self.begin);
        let _first = scanner.next();
        scanner
    }

    // Who starts with something or sends.
    fn actor(self) -> Word<'a> {
        Word(next_word(&mut self.words()).unwrap_or(b"?"))
    }

    fn receiver(self) -> Word<'a> {
        let mut words = self.words();
        let _sender = next_word(&mut words);
        Word(next_word(&mut words).unwrap_or(b"?"))
    }

    // The first name of the declaration that is not declared.
    fn undeclared(self) -> Word<'a> {
        let mut words = self.words();
        while let Some(word) = next_word(&mut words) {
            if self.statement.table.names.get(word).is_none() {
                return Word(word);
            }
        }
        Word(b"?")
    }

    fn write_wrong_kind<W: fmt::Write>(self, f: &mut fmt::Formatter<W>) -> fmt::Result {
        match first_misuse(self.statement, self.begin) {
            Some(misuse) => write!(f, "{misuse}"),
            None => write!(
                f,
                "a name of this line is used as what it is not: write one of the right kind"
            ),
        }
    }

    fn write_no_address<W: fmt::Write>(self, f: &mut fmt::Formatter<W>) -> fmt::Result {
        let sender = self.actor();
        let receiver = self.receiver();
        write!(
            f,
            "{sender} cannot address this message, because {sender} does not have the name of {receiver}: give it with 'own {sender} {receiver}' before the first step, or have it sent to {sender} before"
        )
    }

    fn write_unmakeable<W: fmt::Write>(
        self,
        f: &mut fmt::Formatter<W>,
        term: TermId,
    ) -> fmt::Result {
        let sender = self.actor();
        let missing = self.statement.table.term(term);
        write!(
            f,
            "{sender} cannot make this message, because {sender} does not have {missing}: give it with 'own {sender} {missing}' before the first step, or have it sent to {sender} before"
        )
    }

    fn write_script_full<W: fmt::Write>(
        self,
        f: &mut fmt::Formatter<W>,
        agent: Agent,
    ) -> fmt::Result {
        write!(
            f,
            "{} would have to work through more than 512 instructions: write shorter messages, or split the table into two",
            self.statement.table.agent(agent)
        )
    }
}

impl fmt::Display for RefusedCalls<'_> {
    fn fmt<W: fmt::Write>(&self, f: &mut fmt::Formatter<W>) -> fmt::Result {
        match self.refusal {
            Refusal::Unknown => {
                write!(
                    f,
                    "a name of this line stands for nothing: declare it in a line before"
                )
            }
            Refusal::WrongKind => self.write_wrong_kind(f),
            Refusal::NoRoom => write!(
                f,
                "this line needs a 513th term, and there is room for 512 names and messages with all their parts: write shorter messages, or split the table into two"
            ),
            Refusal::EighthParty => write!(
                f,
                "{} would be the eighth party, and a table has at most seven: leave one out",
                self.undeclared()
            ),
            Refusal::TooLate => write!(
                f,
                "what {} starts with is said after the first step: write this line in front of the first that begins with 'line'",
                self.actor()
            ),
            Refusal::NoTwoParties => write!(
                f,
                "{} would send to itself: write another receiver",
                self.actor()
            ),
            Refusal::LastStep => write!(
                f,
                "this would be the 65th step, and a table has at most 64: leave some out, or split the table into two"
            ),
            Refusal::NoAddress => self.write_no_address(f),
            Refusal::Unmakeable(term) => self.write_unmakeable(f, term),
            Refusal::ScriptFull(agent) => self.write_script_full(f, agent),
        }
    }
}
