// What a step writes into the receiver's script.
ghost use Rattle.deduction.specs.Term.{Named, party};
ghost use Rattle.rules.specs.Effects.{received};
ghost use Rattle.rules.specs.Script.{FROM, RECV};
ghost use Rattle.rules.specs.Walk.{walk};
ghost use Rattle.scripts.specs.Composing.{IsTerm, NamesTerms, view};
ghost use Rattle.scripts.specs.Writing.{Wrote};
ghost use Rattle.terms.specs.Listed.{listed};
ghost use Rattle.terms.specs.Tree.{tree};
ghost use Rattle.effects.specs.Effects.{Effects};

use crate::knowledge::saturated;
use scripts::{Instruction, Script, ScriptError};
use terms::{TermId, Terms};

// Walks the sender's name.
fn walk_sender(script: &mut Script, terms: &Terms<512>, sender: TermId) -> Result<(), ScriptError>
    ensures { let ts = listed terms.now in IsTerm ts sender → NamesTerms ts script.old → Wrote ts script.old (walk (view ts script.old) (FROM (tree ts sender)) (tree ts sender)) result script.new }
{
    script.walk(terms, Instruction::From(sender), sender)
}

// Walks the message.
fn walk_message(script: &mut Script, terms: &Terms<512>, message: TermId) -> Result<(), ScriptError>
    ensures { let ts = listed terms.now in IsTerm ts message → NamesTerms ts script.old → Wrote ts script.old (walk (view ts script.old) (RECV (tree ts message)) (tree ts message)) result script.new }
{
    script.walk(terms, Instruction::Recv(message), message)
}

// A receiver's script after a step. The sender is a party's name, so that walking it compares it or holds it.
pub fn receive(
    script: &Script,
    terms: &Terms<512>,
    sender: TermId,
    message: TermId,
) -> Result<Script, ScriptError>
    ensures { let ts = listed terms.now in IsTerm ts sender → IsTerm ts message → Named party (tree ts sender) → NamesTerms ts script.now → Effects ts (received (view ts script.now) (tree ts sender) (tree ts message)) result }
{
    let mut after = *script;
    walk_sender(&mut after, terms, sender)?;
    walk_message(&mut after, terms, message)?;
    saturated(after, terms)
}
