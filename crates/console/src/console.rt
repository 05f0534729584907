// The console's state and its answers.
ghost use Rattle.console.specs.Steps.{ActedBy, Answered, BytesShown, FitsBy, LineAnswered, ListedBy, MadeBy, New, SameBy, ShownBy, TermShown};
ghost use Rattle.console_calls.specs.Calls.{call_of};
ghost use Rattle.console_calls.specs.Words.{split};

use crate::answer::Answer;
use crate::workspace::Workspace;
use byte_provider::ByteProvider;
use console_calls::{Act, Call, read_call};
use listing::list;
use protocol::{Agent, Protocol};
use provider::{Handle, Making, Provider};
use symbolic_provider::SymbolicProvider;

mod writing;

// Which provider the calls go to.
#[derive(Clone, Copy)]
pub enum Chosen {
    Bytes,
    Symbolic,
}

#[derive(Drop)]
pub struct Console {
    protocol: Protocol,
    chosen: Option<Chosen>,
    bytes: ByteProvider,
    symbolic: SymbolicProvider,
    workspace: Workspace,
    // the bytes that were shown or listed last stand at its front
    shown: [u8; 32768],
}

impl Console {
    pub fn new() -> Self
        ensures { New result }
    {
        Console {
            protocol: Protocol::blank(),
            chosen: None,
            bytes: ByteProvider::blank(),
            symbolic: SymbolicProvider::blank(),
            workspace: Workspace::blank(),
            shown: [0; 32768],
        }
    }

    fn make(&mut self, making: Making) -> Option<Answer>
        ensures { MadeBy self.old.chosen self.old making result self.new }
    {
        match self.chosen? {
            Chosen::Bytes => Some(Answer::Made(self.bytes.make(making))),
            Chosen::Symbolic => Some(Answer::Made(self.symbolic.make(making))),
        }
    }

    fn fits(&self, making: Making) -> Option<Answer>
        ensures { FitsBy self.now.chosen self.now making result }
    {
        match self.chosen? {
            Chosen::Bytes => Some(Answer::Said(self.bytes.fits(making))),
            Chosen::Symbolic => Some(Answer::Said(self.symbolic.fits(making))),
        }
    }

    fn same(&self, a: Handle, b: Handle) -> Option<Answer>
        ensures { SameBy self.now.chosen self.now a b result }
    {
        match self.chosen? {
            Chosen::Bytes => Some(Answer::Said(self.bytes.same(a, b))),
            Chosen::Symbolic => Some(Answer::Said(self.symbolic.same(a, b))),
        }
    }

    // Puts a value's bytes at the front of what is shown.
    fn show_bytes(&mut self, handle: Handle) -> Answer
        ensures { BytesShown self.old handle result self.new }
    {
        match self.bytes.read(handle, &mut self.shown) {
            Ok(len) => Answer::Bytes(Some(len)),
            // no value is too long to be shown
            Err(_) => Answer::Bytes(None),
        }
    }

    fn show_term(&self, handle: Handle) -> Answer
        ensures { TermShown self.now handle result }
    {
        Answer::Term(self.symbolic.term(handle))
    }

    fn show(&mut self, handle: Handle) -> Option<Answer>
        ensures { ShownBy self.old.chosen self.old handle result self.new }
    {
        match self.chosen? {
            Chosen::Bytes => Some(self.show_bytes(handle)),
            Chosen::Symbolic => Some(self.show_term(handle)),
        }
    }

    // Puts the listing of an agent's script at the front of what is shown.
    fn list(&mut self, agent: Agent) -> Answer
        ensures { ListedBy self.old agent (Some result) self.new }
    {
        Answer::Listed(list(&self.protocol, agent, &mut self.shown))
    }

    // What the protocol and the provider do together.
    fn act(&mut self, act: Act) -> Option<Answer>
        ensures { ActedBy self.old.chosen self.old act result self.new }
    {
        match self.chosen? {
            Chosen::Bytes => self.workspace.act(&self.protocol, &mut self.bytes, act),
            Chosen::Symbolic => self.workspace.act(&self.protocol, &mut self.symbolic, act),
        }
    }

    // Answers a call; none where it needs a provider and none is chosen.
    pub fn answer(&mut self, call: Call) -> Option<Answer>
        ensures { Answered self.old call result self.new }
    {
        match call {
            Call::Blank => {
                self.protocol = Protocol::blank();
                Some(Answer::Done)
            }
            Call::Protocol(call) => Some(Answer::Protocol(self.protocol.call(call))),
            Call::List(agent) => Some(self.list(agent)),
            Call::ChooseBytes => {
                self.bytes = ByteProvider::blank();
                self.chosen = Some(Chosen::Bytes);
                Some(Answer::Done)
            }
            Call::ChooseSymbolic => {
                self.symbolic = SymbolicProvider::blank();
                self.chosen = Some(Chosen::Symbolic);
                Some(Answer::Done)
            }
            Call::Make(making) => self.make(making),
            Call::Fits(making) => self.fits(making),
            Call::Same(a, b) => self.same(a, b),
            Call::Show(handle) => self.show(handle),
            Call::Memory(readings, slots) => self.workspace.lend(readings, slots),
            Call::NewSession(party) => self.workspace.open_session(party),
            Call::Act(act) => self.act(act),
        }
    }

    // Answers the call that a line writes; none where it writes no call.
    pub fn answer_line(&mut self, line: &[u8]) -> Option<Answer>
        ensures { LineAnswered self.old (call_of (split line.now)) result self.new }
    {
        self.answer(read_call(line)?)
    }
}
