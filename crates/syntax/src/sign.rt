// What a token is to the grammar.
ghost use Rattle.std.specs.Prelude.{◌≡◌};
ghost use Rattle.syntax.specs.Machine.{is_closes, is_end, is_name, is_opens, is_tick, same_shape};

use scan::Shape;
use terms::Kind;

// The words that no name may be.
#[derive(Clone, Copy, PartialEq, Eq, Debug)]
pub enum Keyword {
    Kind(Kind),
    Own,
    Line,
}

#[derive(Clone, Copy, PartialEq, Eq, Debug)]
pub enum Sign {
    Name,
    Keyword(Keyword),
    Opens(Shape),
    Closes(Shape),
    Tick,
    End,
    // a byte or a word that stands for nothing
    Stray,
}

fn is_same_shape(a: Shape, b: Shape) -> bool
    ensures { result ≡ same_shape a b }
{
    a == b
}

impl Sign {
    pub fn is_name(self) -> bool
        ensures { result ≡ is_name self }
    {
        matches!(self, Sign::Name)
    }

    pub(crate) fn is_tick(self) -> bool
        ensures { result ≡ is_tick self }
    {
        matches!(self, Sign::Tick)
    }

    pub fn is_end(self) -> bool
        ensures { result ≡ is_end self }
    {
        matches!(self, Sign::End)
    }

    // Whether it opens a bracket of this sort.
    pub(crate) fn opens(self, shape: Shape) -> bool
        ensures { result ≡ is_opens shape self }
    {
        match self {
            Sign::Opens(other) => is_same_shape(shape, other),
            Sign::Name
            | Sign::Keyword(_)
            | Sign::Closes(_)
            | Sign::Tick
            | Sign::End
            | Sign::Stray => false,
        }
    }

    // Whether it closes a bracket of this sort.
    pub(crate) fn closes(self, shape: Shape) -> bool
        ensures { result ≡ is_closes shape self }
    {
        match self {
            Sign::Closes(other) => is_same_shape(shape, other),
            Sign::Name | Sign::Keyword(_) | Sign::Opens(_) | Sign::Tick | Sign::End | Sign::Stray =>
                false,
        }
    }
}
