// Which bytes of the table a value is.
ghost use Rattle.std.specs.Prelude.{◌≡◌, ◌+◌, ◌-◌, ◌≤◌};

#[derive(Clone, Copy)]
pub(crate) struct Span {
    pub(crate) start: usize,
    pub(crate) len: usize,
}

impl Span {
    // No bytes at all.
    pub(crate) const NONE: Self = Span { start: 0, len: 0 };

    // All but the first byte.
    pub(crate) fn body(self) -> Self
        requires { (1 ≤ self.len) × (self.start + self.len ≤ 32768) }
        ensures { result ≡ record { start = self.start + 1; len = self.len - 1 } }
    {
        Span {
            start: self.start + 1,
            len: self.len - 1,
        }
    }
}
