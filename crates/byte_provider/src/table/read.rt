// Reading the bytes in use.
ghost use Rattle.std.specs.Prelude.{◌≡◌, ◌≤◌, length};
ghost use Rattle.byte_provider.specs.Held.{held, part, Inside};

use super::Table;
use crate::span::Span;

impl Table {
    // How many bytes are in use.
    pub(crate) fn used(&self) -> usize
        ensures { (result ≡ length (held self.now)) × (result ≤ 32768) }
    {
        self.used
    }

    // The bytes of a span.
    pub(crate) fn part(&self, span: Span) -> &[u8]
        requires { Inside (held self.now) span }
        ensures { result.now ≡ part (held self.now) span }
    {
        &self.bytes[span.start..span.start + span.len]
    }
}
