// Where in a line the check is.
ghost use Rattle.std.specs.Prelude.{◌≡◌};
ghost use Rattle.syntax.specs.Machine.{is_done, use_in};

// A bracket that is open: a tuple in its first or a later part, a sealed content, a digested term.
#[derive(Clone, Copy)]
pub(crate) enum Frame {
    First,
    Later,
    Content,
    Digested,
}

// What has been read last, or is due.
#[derive(Clone, Copy)]
pub(crate) enum Mode {
    // the line's first token is due
    Fresh,
    // the first name of a declaration is due
    Kinded,
    // a further name of a declaration is due, or its end
    Listing,
    // the agent of initial knowledge is due
    Owner,
    Sender,
    Receiver,
    // a term is due
    Start,
    // after a name that may be a key, a table or a function
    AfterName,
    // after a sealing name, which may be a key or a table
    AfterSealer,
    // after a key, which may have ticks
    AfterKey,
    // after any other term
    After,
    // the key of a sealed term is due
    Sealer,
    // the party of an entry is due
    Party,
    // the closing bracket of an entry is due
    EntryEnd,
    // the line is over
    Done,
}

// What a name that is due there is for.
#[derive(Clone, Copy, PartialEq, Eq, Debug)]
pub enum NameUse {
    // it is declared
    Declared,
    // an agent with initial knowledge, a sender or a receiver
    Agent,
    // a part of a term
    Part,
}

impl Mode {
    pub(crate) fn name_use(self) -> NameUse
        ensures { result ≡ use_in self }
    {
        match self {
            Mode::Kinded | Mode::Listing => NameUse::Declared,
            Mode::Owner | Mode::Sender | Mode::Receiver => NameUse::Agent,
            Mode::Fresh
            | Mode::Start
            | Mode::AfterName
            | Mode::AfterSealer
            | Mode::AfterKey
            | Mode::After
            | Mode::Sealer
            | Mode::Party
            | Mode::EntryEnd
            | Mode::Done => NameUse::Part,
        }
    }

    pub(crate) fn is_done(self) -> bool
        ensures { result ≡ is_done self }
    {
        matches!(self, Mode::Done)
    }
}
