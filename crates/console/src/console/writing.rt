// Writing the line of an answer.
use crate::answer::Answer;
use crate::console::Console;
use acting::SessionRefusal;
use protocol::{Answer as ProtocolAnswer, Refusal, Reply};
use provider::{Handle, ProviderError};
use runs::{Played, RunFault};
use std::io;
use std::io::Write;
use terms::{Form, TermNode};

impl Console {
    // Writes the line of an answer, after the lines of a listing.
    pub fn write<W: Write>(&self, answer: Option<Answer>, out: &mut W) -> io::Result<()> {
        match answer {
            Some(Answer::Done) => writeln!(out, "ok"),
            Some(Answer::Number(number)) => writeln!(out, "{number}"),
            Some(Answer::Protocol(answer)) => write_protocol_answer(answer, out),
            Some(Answer::Listed(Ok(len))) => self.write_listing(len, out),
            Some(Answer::Listed(Err(error))) => write_refused(error.number(), None, out),
            Some(Answer::Made(Ok(handle))) => writeln!(out, "{handle}"),
            Some(
                Answer::Made(Err(ProviderError::Wrong)) | Answer::Bytes(None) | Answer::Term(None),
            ) => writeln!(out, "wrong"),
            Some(Answer::Made(Err(ProviderError::Full))) => writeln!(out, "full"),
            Some(Answer::Said(yes)) => write_yes_or_no(yes, out),
            Some(Answer::Bytes(Some(len))) => self.write_bytes(len, out),
            Some(Answer::Term(Some(node))) => write_term(node, out),
            Some(Answer::Counted(answer)) => write_count(answer, out),
            Some(Answer::Sent(answer)) => write_sent(answer, out),
            Some(Answer::Run(answer)) => write_run(answer, out),
            None => writeln!(out, "unread"),
        }
    }

    fn write_bytes<W: Write>(&self, len: usize, out: &mut W) -> io::Result<()> {
        write!(out, "bytes")?;
        for b in self.shown.iter().take(len) {
            write!(out, " {b}")?;
        }
        writeln!(out)
    }

    // The lines, and how many bytes they have.
    fn write_listing<W: Write>(&self, len: usize, out: &mut W) -> io::Result<()> {
        out.write_all(self.shown.get(..len).unwrap_or(b""))?;
        writeln!(out, "bytes {len}")
    }
}

fn write_yes_or_no<W: Write>(yes: bool, out: &mut W) -> io::Result<()> {
    writeln!(out, "{}", if yes { "yes" } else { "no" })
}

// Writes a refusal's number and what it carries, without the line's end.
fn write_refusal<W: Write>(number: usize, value: Option<usize>, out: &mut W) -> io::Result<()> {
    write!(out, "refused {number}")?;
    match value {
        Some(value) => write!(out, " {value}"),
        None => Ok(()),
    }
}

fn write_refused<W: Write>(number: usize, value: Option<usize>, out: &mut W) -> io::Result<()> {
    write_refusal(number, value, out)?;
    writeln!(out)
}

fn write_protocol_answer<W: Write>(answer: ProtocolAnswer, out: &mut W) -> io::Result<()> {
    match answer {
        Ok(Reply::Number(number)) => writeln!(out, "{number}"),
        Ok(Reply::Done) => writeln!(out, "ok"),
        Ok(Reply::Said(yes)) => write_yes_or_no(yes, out),
        Err(refusal) => write_refused(refusal.number(), refusal.value(), out),
    }
}

fn write_count<W: Write>(answer: Result<usize, SessionRefusal>, out: &mut W) -> io::Result<()> {
    match answer {
        Ok(count) => writeln!(out, "{count}"),
        Err(refusal) => write_refused(refusal.number(), refusal.value(), out),
    }
}

fn write_sent<W: Write>(
    answer: Result<(Handle, Handle), SessionRefusal>,
    out: &mut W,
) -> io::Result<()> {
    match answer {
        Ok((message, address)) => writeln!(out, "{message} {address}"),
        Err(refusal) => write_refused(refusal.number(), refusal.value(), out),
    }
}

fn write_run<W: Write>(answer: Result<Played, RunFault>, out: &mut W) -> io::Result<()> {
    match answer {
        Ok(played) => writeln!(out, "{} {}", played.steps, played.sames),
        Err(fault) => {
            write_refusal(fault.refusal.number(), fault.refusal.value(), out)?;
            writeln!(out, " {} {}", fault.step, fault.party)
        }
    }
}

// Writes a term by its kind and number, or by the handles of its parts.
fn write_term<W: Write>(node: TermNode, out: &mut W) -> io::Result<()> {
    match node {
        TermNode::Name(kind, id) => writeln!(out, "atom {} {id}", usize::from(kind)),
        TermNode::Built(Form::Pair, a, b) => writeln!(out, "pair {a} {b}"),
        TermNode::Built(Form::Sealed, a, b) => writeln!(out, "sealed {a} {b}"),
        TermNode::Built(Form::Digest, a, b) => writeln!(out, "digest {a} {b}"),
        TermNode::Built(Form::Entry, a, b) => writeln!(out, "entry {a} {b}"),
        TermNode::Mate(key) => writeln!(out, "mate {key}"),
    }
}
