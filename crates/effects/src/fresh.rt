// Writing the fresh names of a message.
ghost use Rattle.std.specs.Prelude.{◌≡◌, Some};
ghost use Rattle.rules.specs.Effects.{freshen, freshens};
ghost use Rattle.scripts.specs.Composing.{IsTerm, NamesTerms, view};
ghost use Rattle.scripts.specs.View.{Pushed};
ghost use Rattle.scripts.specs.Writing.{Writes};
ghost use Rattle.scripts.specs.declared.instruction.Instruction.TheVariants.{Fresh};
ghost use Rattle.terms.specs.Listed.{listed};
ghost use Rattle.terms.specs.Tree.{tree};
ghost use Rattle.effects.specs.Sending.{MateKnown, MatesKnown, PublicMate, is_public, marked_trees};

use scripts::{Instruction, Script, ScriptError, Slot};
use terms::{Kind, Marks, TermId, TermNode, Terms};

// Whether a record is that of a public key.
fn is_public(node: TermNode) -> bool
    ensures { result ≡ is_public node }
{
    matches!(node, TermNode::Name(Kind::Public, _))
}

// The mate of a public key, if it is a term.
fn public_mate(terms: &Terms<512>, name: TermId) -> Option<TermId>
    ensures { PublicMate (listed terms.now) name result }
{
    let node = terms.get(name)?;
    if is_public(node) {
        terms.opener(name)
    } else {
        None
    }
}

// Writes FRESH.
fn push_fresh(script: &mut Script, name: TermId) -> Result<Slot, ScriptError>
    ensures { Pushed script.old (record { op = Fresh name; holds = Some name }) result script.new }
{
    script.push(Instruction::Fresh(name), Some(name))
}

// One fresh name; a public key is followed by its mate.
fn freshen(script: &mut Script, terms: &Terms<512>, name: TermId) -> Result<(), ScriptError>
    ensures { let ts = listed terms.now in IsTerm ts name → MateKnown ts name → NamesTerms ts script.old → Writes ts (freshen (view ts script.old) (tree ts name)) result script.new }
{
    let slot = push_fresh(script, name)?;
    if let Some(mate) = public_mate(terms, name) {
        script.push(Instruction::Mate(slot), Some(mate))?;
    }
    Ok(())
}

// The fresh names in number order.
pub(crate) fn freshen_all(
    script: &mut Script,
    terms: &Terms<512>,
    fresh: &Marks<512>,
) -> Result<(), ScriptError>
    ensures { let ts = listed terms.now in NamesTerms ts script.old → MatesKnown ts fresh.now → Writes ts (freshens (view ts script.old) (marked_trees ts fresh.now)) result script.new }
{
    for name in 0..terms.len() {
        if fresh.contains(name) {
            freshen(script, terms, name)?;
        }
    }
    Ok(())
}
