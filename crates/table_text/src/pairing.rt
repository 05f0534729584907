// The pairs that a tuple stands for, built from the right.
ghost use Rattle.std.specs.Prelude.{◌≡◌, ◌-◌, [], ◌∷◌, ◌++◌, ℕ, List, length, OnOk};
ghost use Rattle.bounded.specs.Items.{items};
ghost use Rattle.protocol.specs.View.{view_of};
ghost use Rattle.table_text.specs.Calls.{Pairs};

use crate::calls::pair;
use bounded::BoundedVec;
use protocol::{Protocol, Refusal};
use terms::TermId;

// The numbers of terms that stand before others in the tuples that are open. A text has at most 32,768 bytes, so that a line has room
// for no more.
pub(crate) type Parts = BoundedVec<TermId, 32768>;

// Takes the last part off.
fn pop(parts: &mut Parts) -> TermId
    ensures last { (front : List ℕ) (a : ℕ) → items parts.old ≡ front ++ a ∷ [] → (result ≡ a) × (items parts.new ≡ front) }
    ensures shorter { length (items parts.new) ≡ length (items parts.old) - 1 }
{
    let last = parts.len().saturating_sub(1);
    let part = parts.get(last).unwrap_or(0);
    parts.truncate(last);
    part
}

// Pairs the parts from a place on, from the right, and takes them off.
pub(crate) fn pair_up(
    protocol: &mut Protocol,
    parts: &mut Parts,
    from: usize,
) -> Result<TermId, Refusal>
    ensures { (front : List ℕ) (a : ℕ) (bs : List ℕ) → items parts.old ≡ front ++ a ∷ bs → length front ≡ from
        → Pairs a bs (view_of protocol.old) result (view_of protocol.new) × OnOk result (items parts.new ≡ front) }
{
    let mut last = pop(parts);
    while parts.len() > from {
        let part = pop(parts);
        last = pair(protocol, part, last)?;
    }
    Ok(last)
}
