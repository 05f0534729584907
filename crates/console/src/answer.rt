// What the console answers to a call.
use acting::SessionRefusal;
use listing::ListingError;
use protocol::Answer as ProtocolAnswer;
use provider::{Handle, ProviderError};
use runs::{Played, RunFault};
use terms::TermNode;

#[derive(Clone, Copy)]
pub enum Answer {
    Done,
    // a number of its own
    Number(usize),
    // what the protocol answered
    Protocol(ProtocolAnswer),
    // how many bytes the listing has
    Listed(Result<usize, ListingError>),
    // what a making came to
    Made(Result<Handle, ProviderError>),
    Said(bool),
    // how many bytes the shown value has, if it was issued
    Bytes(Option<usize>),
    // the shown term by its name or by the handles of its parts, if it was issued
    Term(Option<TermNode>),
    // terms, instructions or comparisons that were done
    Counted(Result<usize, SessionRefusal>),
    // the handles of a message and of its receiver's name
    Sent(Result<(Handle, Handle), SessionRefusal>),
    Run(Result<Played, RunFault>),
}
