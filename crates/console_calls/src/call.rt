// What can be asked of the console.
use protocol::{Agent, Call as ProtocolCall};
use provider::{Handle, Making};

#[derive(Clone, Copy)]
pub enum Call {
    // begin a blank protocol
    Blank,
    Protocol(ProtocolCall),
    // the listing of an agent's script
    List(Agent),
    // choose a new blank byte provider
    ChooseBytes,
    // choose a new blank symbolic provider
    ChooseSymbolic,
    Make(Making),
    Fits(Making),
    Same(Handle, Handle),
    Show(Handle),
    // how many readings and slots are lent from now on
    Memory(usize, usize),
    // open a session of a party
    NewSession(Agent),
    Act(Act),
}

// What the protocol and the provider do together.
#[derive(Clone, Copy)]
pub enum Act {
    Load,
    // a session by its number, and its turn
    Session(usize, Turn),
    Run,
}

// What a session is to do.
#[derive(Clone, Copy)]
pub enum Turn {
    Start,
    Send,
    // the handles of the sender's name and of the message
    Receive(Handle, Handle),
}
