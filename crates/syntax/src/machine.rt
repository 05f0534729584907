// How far a line has been read; its steps stand in the module below it.
ghost use Rattle.std.specs.Prelude.{◌≡◌, ◌+◌, ◌≤◌, length};
ghost use Rattle.bounded.specs.Items.{items};
ghost use Rattle.syntax.specs.Machine.{within_entry};
ghost use Rattle.syntax.specs.declared.machine.TokenFault.TheVariants.{TooDeep};

use crate::mode::{Frame, Mode};
use bounded::{BoundedVec, Full};

mod steps;

// Why a token cannot stand where it does.
#[derive(Clone, Copy, PartialEq, Eq, Debug)]
pub enum TokenFault {
    // no line of the grammar can have it there
    Outside,
    // it opens a 65th bracket
    TooDeep,
}

impl From<Full> for TokenFault {
    ghost from_gives = { λ _ fault. fault ≡ TooDeep };

    fn from(_: Full) -> TokenFault {
        TokenFault::TooDeep
    }
}

// What is due in the line, and the brackets that are open, the last one at the end.
#[derive(Clone, Copy)]
pub struct Machine {
    mode: Mode,
    frames: BoundedVec<Frame, 64>,
    ghost shallow: { length (items frames) + within_entry mode ≤ 64 },
}
