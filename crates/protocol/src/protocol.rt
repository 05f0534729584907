// The protocol itself; the calls stand in the modules below it.
ghost use Rattle.std.specs.Prelude.{◌≡◌, true, map};
ghost use Rattle.bounded.specs.Items.{items};
ghost use Rattle.scripts.specs.View.{written};
ghost use Rattle.terms.specs.Listed.{listed};
ghost use Rattle.protocol.specs.States.{are_all_known, state_by};
ghost use Rattle.protocol.specs.Reached.{Reached};

use crate::step::Step;
use bounded::BoundedVec;
use scripts::Script;
use terms::Terms;

mod addressing;
mod asking;
mod begins;
mod building;
mod calling;
mod calls;
mod delivering;
mod knowing;
mod names;
mod naming;
mod read;
mod shown;
mod stepping;

// The terms, the scripts by agent, and the granted steps. Whatever it holds came about from blank by calls.
#[derive(Clone, Copy)]
pub struct Protocol {
    terms: Terms<512>,
    scripts: BoundedVec<Script, 8>,
    steps: BoundedVec<Step, 64>,
    ghost known: { are_all_known (listed terms) (map written (items scripts)) (items steps) ≡ true },
    ghost came: { Reached (state_by (listed terms) (map written (items scripts)) (items steps)) },
}
