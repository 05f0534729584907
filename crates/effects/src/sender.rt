// What a step writes into the sender's script.
ghost use Rattle.std.specs.Prelude.{None};
ghost use Rattle.scripts.specs.Composing.{IsTerm, NamesTerms, view};
ghost use Rattle.scripts.specs.View.{Pushed};
ghost use Rattle.scripts.specs.declared.instruction.Instruction.TheVariants.{Send};
ghost use Rattle.terms.specs.Listed.{listed};
ghost use Rattle.terms.specs.Tree.{tree};
ghost use Rattle.effects.specs.Sending.{MatesKnown, NamesMarked, Sends, marked_trees};

use crate::fresh::freshen_all;
use crate::missing::lacking;
use scripts::{Instruction, Script, ScriptError, Slot};
use terms::{Marks, TermId, Terms};

// Writes SEND.
fn address_to(script: &mut Script, message: Slot, address: Slot) -> Result<Slot, ScriptError>
    ensures { Pushed script.old (record { op = Send message address; holds = None }) result script.new }
{
    script.push(Instruction::Send(message, address), None)
}

// A sender's script after a step: the fresh names of the message, the message, SEND. What is missing is judged first, as if there
// were room.
pub fn send(
    script: &Script,
    terms: &Terms<512>,
    fresh: &Marks<512>,
    message: TermId,
    address: Slot,
) -> Result<Script, ScriptError>
    ensures { let ts = listed terms.now in IsTerm ts message → NamesTerms ts script.now → NamesMarked ts fresh.now → MatesKnown ts fresh.now → Sends ts (view ts script.now) (marked_trees ts fresh.now) (tree ts message) address result }
{
    if let Some(missing) = lacking(script, terms, fresh, message) {
        return Err(ScriptError::Missing(missing));
    }
    let mut after = *script;
    freshen_all(&mut after, terms, fresh)?;
    let slot = after.compose(terms, message)?;
    address_to(&mut after, slot, address)?;
    Ok(after)
}
