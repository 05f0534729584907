// The provider's state: the bytes in use, and where the value of each issued handle lies in them.
ghost use Rattle.std.specs.Prelude.{All};
ghost use Rattle.bounded.specs.Items.{items};
ghost use Rattle.byte_provider.specs.Held.{held, Inside};

use crate::span::Span;
use crate::table::Table;
use bounded::BoundedVec;

mod calls;
mod planning;

#[derive(Drop)]
pub struct ByteProvider {
    table: Table,
    spans: BoundedVec<Span, 4096>,
    ghost within: { All (Inside (held table)) (items spans) },
}

// Why the bytes of a handle were not read: it was never issued, or the slice is too short for them.
#[derive(Clone, Copy, PartialEq, Eq, Debug)]
pub enum ReadError {
    Unissued,
    Short,
}
