// Terms in the notation of tables, with the names of the text.
ghost use Rattle.std.specs.Prelude.{◌≡◌, ◌<◌, ◌≤◌, length, Some, IfSome, IsNone};
ghost use Rattle.std.specs.Fmt.{DisplaysOnOk};
ghost use Rattle.names.specs.Names.{known};
ghost use Rattle.terms.specs.Listed.{listed};
ghost use Rattle.terms.specs.Node.{PartsBelow};
ghost use Rattle.terms.specs.Tree.{form_of, tree, tree_of};
ghost use Rattle.table_words.specs.Notation.{before, behind, between, has_rest, name_text, notation, printed};

use crate::word::Letters;
use names::Names;
use protocol::{Agent, Protocol};
use std::fmt;
use terms::{Form, TermId, TermNode, Terms};

// What a table's text made, and the names that it declared.
#[derive(Clone, Copy)]
pub struct Table<'a> {
    pub protocol: &'a Protocol,
    pub names: &'a Names<'a>,
}

impl<'a> Table<'a> {
    pub fn term(self, term: TermId) -> TermText<'a>
        ensures term { result.term ≡ term }
        ensures terms { result.terms.now ≡ self.entry.protocol.now.terms }
        ensures names { result.names.now ≡ self.entry.names.now }
    {
        let terms = self.protocol.terms();
        let names = self.names;
        TermText { terms, names, term }
    }

    pub fn agent(self, agent: Agent) -> AgentText<'a>
        ensures { result.agent ≡ agent }
    {
        AgentText { table: self, agent }
    }
}

// A term as a table writes it.
#[derive(Clone, Copy)]
pub struct TermText<'a> {
    terms: &'a Terms<512>,
    names: &'a Names<'a>,
    term: TermId,
}

// What stands before, between and behind the two parts of a term.
#[derive(Clone, Copy)]
struct Marks {
    before: &'static str,
    between: &'static str,
    behind: &'static str,
}

// A pair that is the rest of a tuple has no brackets of its own.
fn marks_of(form: Form, is_rest: bool) -> Marks
    ensures before { result.before.now ≡ before (form_of form) is_rest }
    ensures between { result.between.now ≡ between (form_of form) }
    ensures behind { result.behind.now ≡ behind (form_of form) is_rest }
{
    let (before, between, behind) = match form {
        Form::Pair if is_rest => ("", " ", ""),
        Form::Pair => ("(", " ", ")"),
        Form::Sealed => ("{", "}", ""),
        Form::Digest => ("", "<", ">"),
        Form::Entry => ("", "[", "]"),
    };
    Marks {
        before,
        between,
        behind,
    }
}

// Whether the second part of a term is the rest of a tuple.
fn has_rest(form: Form) -> bool
    ensures { result ≡ has_rest (form_of form) }
{
    matches!(form, Form::Pair)
}

fn write_name<W: fmt::Write>(
    f: &mut fmt::Formatter<W>,
    names: &Names<'_>,
    term: TermId,
) -> fmt::Result
    ensures { DisplaysOnOk W.write_str_gives f.old result (Some (name_text (known names.now) term)) f.new }
{
    match names.word(term) {
        Some(word) => write!(f, "{}", Letters(word)),
        None => write!(f, "?"),
    }
}

impl<'a> TermText<'a> {
    // The text of another term.
    fn of(self, term: TermId) -> TermText<'a>
        ensures term { result.term ≡ term }
        ensures terms { result.terms.now ≡ self.entry.terms.now }
        ensures names { result.names.now ≡ self.entry.names.now }
    {
        TermText { term, ..self }
    }

    // The record of the term; its parts have lower numbers.
    #[tactic(auto, using(crate::proofs::Below::parts_below))]
    fn node(self) -> Option<TermNode>
        ensures lower { IfSome result (λ node. PartsBelow self.entry.term node) }
        ensures stands { IfSome result (λ node. tree (listed self.entry.terms.now) self.entry.term ≡ tree_of node (tree (listed self.entry.terms.now))) }
        ensures none { IsNone result → length (listed self.entry.terms.now) ≤ self.entry.term }
    {
        self.terms.get(self.term)
    }

    // Writes the term, which is the rest of a tuple or stands alone.
    fn write<W: fmt::Write>(self, f: &mut fmt::Formatter<W>, is_rest: bool) -> fmt::Result
        ensures { self.entry.term < length (listed self.entry.terms.now) → DisplaysOnOk W.write_str_gives f.old result (Some (notation (known self.entry.names.now) is_rest (tree (listed self.entry.terms.now) self.entry.term))) f.new }
    {
        match self.node() {
            None => write!(f, "?"),
            Some(TermNode::Name(_, id)) => write_name(f, self.names, id),
            Some(TermNode::Mate(key)) => {
                self.of(key).write(f, false)?;
                write!(f, "'")
            }
            Some(TermNode::Built(form, first, second)) => {
                let marks = marks_of(form, is_rest);
                write!(f, "{}", marks.before)?;
                self.of(first).write(f, false)?;
                write!(f, "{}", marks.between)?;
                self.of(second).write(f, has_rest(form))?;
                write!(f, "{}", marks.behind)
            }
        }
    }
}

impl fmt::Display for TermText<'_> {
    ghost output = { printed };

    fn fmt<W: fmt::Write>(&self, f: &mut fmt::Formatter<W>) -> fmt::Result {
        self.write(f, false)
    }
}

// What an agent is called in the table; the listener has no name there.
#[derive(Clone, Copy)]
pub struct AgentText<'a> {
    table: Table<'a>,
    agent: Agent,
}

impl fmt::Display for AgentText<'_> {
    fn fmt<W: fmt::Write>(&self, f: &mut fmt::Formatter<W>) -> fmt::Result {
        match self.table.protocol.name_of(self.agent) {
            Some(term) => write_name(f, self.table.names, term),
            None => write!(f, "the listener"),
        }
    }
}
