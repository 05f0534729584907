// Why a run was stopped, in words.
use acting::SessionRefusal;
use protocol::LISTENER;
use runs::RunFault;
use std::fmt;
use table_words::Table;

// What a fault before the first step has as its step.
const BEFORE_STEPS: usize = 64;

// A stopped run of a table.
#[derive(Clone, Copy)]
pub(crate) struct Stop<'a> {
    pub(crate) table: Table<'a>,
    pub(crate) fault: RunFault,
}

fn reason(refusal: SessionRefusal) -> &'static str {
    match refusal {
        SessionRefusal::NoParty => "there is no such party",
        SessionRefusal::NoMemory => "there is too little memory",
        SessionRefusal::NotItsTurn => "it is not its turn",
        SessionRefusal::ProviderFull(_) => "the provider has no room for what comes next",
        SessionRefusal::ProviderWrong(_) => "the provider finds what comes next wrong",
    }
}

impl fmt::Display for Stop<'_> {
    fn fmt<W: fmt::Write>(&self, f: &mut fmt::Formatter<W>) -> fmt::Result {
        let RunFault {
            refusal,
            step,
            party,
        } = self.fault;
        write!(f, "stopped ")?;
        if party == LISTENER {
            write!(f, "while the terms are loaded")?;
        } else if step == BEFORE_STEPS {
            write!(f, "before the first step at {}", self.table.agent(party))?;
        } else {
            write!(f, "in step {step} at {}", self.table.agent(party))?;
        }
        write!(f, ": {}", reason(refusal))
    }
}
