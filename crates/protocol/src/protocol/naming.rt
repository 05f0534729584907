// Naming: a name's identity is its number, a public key comes with its mate, and a party opens the next agent.
ghost use Rattle.std.specs.Prelude.{◌≡◌, ◌+◌, ◌≤◌, length};
ghost use Rattle.rules.specs.State.{NAME, kind_of};
ghost use Rattle.terms.specs.declared.node.TermNode.TheVariants.{Name};
ghost use Rattle.terms.specs.Listed.{listed};
ghost use Rattle.terms.specs.Outcome.{Absent};
ghost use Rattle.scripts.specs.View.{written};
ghost use Rattle.protocol.specs.View.{lines_of, view_of};
ghost use Rattle.protocol.specs.Outcome.{Performed, Unaltered, number};
ghost use Rattle.protocol.specs.Adding.{tree_kind, places, opens, admitted, Named, party_lines};

use crate::protocol::Protocol;
use crate::refusal::Refusal;
use scripts::{Instruction, Script};
use terms::{Kind, TermId, Terms};

// The kind of a number.
fn kind_of(kind: usize) -> Option<Kind>
    ensures { tree_kind result ≡ kind_of kind }
{
    Kind::try_from(kind).ok()
}

// How many terms a name of the kind adds.
fn places_for(kind: Kind) -> usize
    ensures { result ≡ places kind }
{
    match kind {
        Kind::Public => 2,
        Kind::Party | Kind::Number | Kind::Shared | Kind::Table | Kind::Function => 1,
    }
}

// How many agents it opens.
fn opened_by(kind: Kind) -> usize
    ensures { result ≡ opens kind }
{
    match kind {
        Kind::Party => 1,
        Kind::Number | Kind::Shared | Kind::Public | Kind::Table | Kind::Function => 0,
    }
}

// A new name under the next number, with its mate if it is a public key.
fn add_name(terms: &mut Terms<512>, kind: Kind) -> Result<TermId, Refusal>
    requires room { length (listed terms.old) + places kind ≤ 512 }
    requires new { Absent (listed terms.old) (Name kind (length (listed terms.old))) }
    ensures { Named (listed terms.old) kind result (listed terms.new) }
{
    let id = terms.name(kind, terms.len())?;
    if kind == Kind::Public {
        terms.mate(id)?;
    }
    Ok(id)
}

// The script of a new party, which is given its own name.
fn party_script(name: TermId) -> Script
    ensures { written result ≡ party_lines name }
{
    let mut script = Script::blank();
    let _slot = script.push(Instruction::Given(name), Some(name));
    script
}

impl Protocol {
    // The test of a name: places for its terms, and an agent for a party.
    fn admits(&self, kind: Kind) -> Result<(), Refusal>
        ensures { result ≡ admitted (length (listed self.now.terms)) (length (lines_of self.now)) kind }
    {
        if self.terms.len() + places_for(kind) > 512 {
            Err(Refusal::NoRoom)
        } else if self.agents() + opened_by(kind) > 8 {
            Err(Refusal::EighthParty)
        } else {
            Ok(())
        }
    }

    // A new name of the kind; a party opens the next agent.
    pub(super) fn perform_name(&mut self, kind: usize) -> Result<TermId, Refusal>
        ensures performed { Performed (view_of self.old) (NAME kind) (number result) (view_of self.new) }
        ensures unaltered { Unaltered result self.old self.new }
    {
        let Some(kind) = kind_of(kind) else {
            return Err(Refusal::Unknown);
        };
        self.admits(kind)?;
        let name = add_name(&mut self.terms, kind)?;
        if kind == Kind::Party {
            let _agent = self.scripts.push(party_script(name));
        }
        Ok(name)
    }
}
