// The calls on a protocol and their answers, as values.
use crate::refusal::Refusal;
use crate::step::Agent;
use terms::TermId;

// Kinds and forms are given by number, so that any number can be asked for: kinds 0 party, 1 number, 2 shared key, 3 public key,
// 4 table, 5 function; forms 0 pair, 1 sealed, 2 digest, 3 entry, 4 mate, which looks at its first part only.
#[derive(Clone, Copy, PartialEq, Eq, Debug)]
pub enum Call {
    Name(usize),
    Build(usize, TermId, TermId),
    // agent, term
    Know(Agent, TermId),
    // sender, receiver, message
    Step(Agent, Agent, TermId),
    // agent, term
    CanBuild(Agent, TermId),
}

// What a granted call answers: the number of a term or of a step, nothing more, or yes or no.
#[derive(Clone, Copy, PartialEq, Eq, Debug)]
pub enum Reply {
    Number(usize),
    Done,
    Said(bool),
}

pub type Answer = Result<Reply, Refusal>;
