// What a step writes into the listener's script.
ghost use Rattle.rules.specs.Effects.{overhears, overheard};
ghost use Rattle.rules.specs.Script.{FROM, TO};
ghost use Rattle.scripts.specs.Composing.{IsTerm, NamesTerms, OpNames, view};
ghost use Rattle.scripts.specs.Lines.{op_of};
ghost use Rattle.scripts.specs.Writing.{Writes};
ghost use Rattle.terms.specs.Listed.{listed};
ghost use Rattle.terms.specs.Tree.{tree};
ghost use Rattle.effects.specs.Effects.{Effects};

use crate::knowledge::saturated;
use scripts::{Instruction, Script, ScriptError};
use terms::{TermId, Terms};

// What cannot be composed is held by the instruction's slot.
fn hold(
    script: &mut Script,
    terms: &Terms<512>,
    op: Instruction,
    term: TermId,
) -> Result<(), ScriptError>
    ensures { let ts = listed terms.now in IsTerm ts term → NamesTerms ts script.old → OpNames ts op → Writes ts (overhears (view ts script.old) (op_of (tree ts) op) (tree ts term)) result script.new }
{
    if script.missing(terms, term).is_none() {
        return Ok(());
    }
    script.push(op, Some(term))?;
    Ok(())
}

// Who sent it.
fn hold_sender(script: &mut Script, terms: &Terms<512>, from: TermId) -> Result<(), ScriptError>
    ensures { let ts = listed terms.now in IsTerm ts from → NamesTerms ts script.old → Writes ts (overhears (view ts script.old) (FROM (tree ts from)) (tree ts from)) result script.new }
{
    hold(script, terms, Instruction::From(from), from)
}

// To whom it was sent.
fn hold_receiver(script: &mut Script, terms: &Terms<512>, to: TermId) -> Result<(), ScriptError>
    ensures { let ts = listed terms.now in IsTerm ts to → NamesTerms ts script.old → Writes ts (overhears (view ts script.old) (TO (tree ts to)) (tree ts to)) result script.new }
{
    hold(script, terms, Instruction::To(to), to)
}

// The listener's script after a step.
pub fn overhear(
    script: &Script,
    terms: &Terms<512>,
    from: TermId,
    to: TermId,
    message: TermId,
) -> Result<Script, ScriptError>
    ensures { let ts = listed terms.now in IsTerm ts from → IsTerm ts to → IsTerm ts message → NamesTerms ts script.now → Effects ts (overheard (view ts script.now) (tree ts from) (tree ts to) (tree ts message)) result }
{
    let mut after = *script;
    hold_sender(&mut after, terms, from)?;
    hold_receiver(&mut after, terms, to)?;
    hold(&mut after, terms, Instruction::Recv(message), message)?;
    saturated(after, terms)
}
