// Initial knowledge, and saturating at the end of an effect.
ghost use Rattle.std.specs.Prelude.{Some};
ghost use Rattle.rules.specs.Effects.{knows};
ghost use Rattle.rules.specs.Saturate.{saturate};
ghost use Rattle.scripts.specs.Composing.{IsTerm, NamesTerms, view};
ghost use Rattle.scripts.specs.View.{Pushed};
ghost use Rattle.scripts.specs.declared.instruction.Instruction.TheVariants.{Given};
ghost use Rattle.terms.specs.Listed.{listed};
ghost use Rattle.terms.specs.Tree.{tree};
ghost use Rattle.effects.specs.Effects.{Effects};

use scripts::{Instruction, Script, ScriptError, Slot};
use terms::{TermId, Terms};

// The script, saturated.
pub(crate) fn saturated(mut script: Script, terms: &Terms<512>) -> Result<Script, ScriptError>
    ensures { let ts = listed terms.now in NamesTerms ts script → Effects ts (saturate (view ts script)) result }
{
    script.saturate(terms)?;
    Ok(script)
}

// Writes GIVEN.
fn give(script: &mut Script, term: TermId) -> Result<Slot, ScriptError>
    ensures { Pushed script.old (record { op = Given term; holds = Some term }) result script.new }
{
    script.push(Instruction::Given(term), Some(term))
}

// Initial knowledge: what can be composed writes nothing.
pub fn know(script: &Script, terms: &Terms<512>, term: TermId) -> Result<Script, ScriptError>
    ensures { let ts = listed terms.now in IsTerm ts term → NamesTerms ts script.now → Effects ts (knows (view ts script.now) (tree ts term)) result }
{
    if script.missing(terms, term).is_none() {
        return Ok(*script);
    }
    let mut after = *script;
    give(&mut after, term)?;
    saturated(after, terms)
}
