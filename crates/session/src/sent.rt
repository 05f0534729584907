// What a sender's part sends.
ghost use Rattle.std.specs.Prelude.{◌≡◌};
ghost use Rattle.scripts.specs.View.{written};
ghost use Rattle.session.specs.Sent.{sent_by};

use provider::Handle;
use scripts::{Instruction, Line, Script, Slot};

// The message and the address that the part of a script that ends at `end` sends: its last instruction names their slots.
pub(crate) fn sent_by(script: &Script, end: usize, slots: &[Handle]) -> (Handle, Handle)
    ensures { result ≡ sent_by (written script.now) end slots.now }
{
    let held = |slot: Slot| slots.get(slot).copied().unwrap_or(0);
    match script.line(end.saturating_sub(1)) {
        Some(
            Line {
                op: Instruction::Send(message, address),
                ..
            },
        ) => (held(message), held(address)),
        _ => (0, 0),
    }
}
