// How a value is made of the bytes in use: worked out before anything is written.
ghost use Rattle.std.specs.Prelude.{◌≡◌, ◌<◌, ◌≤◌, length};
ghost use Rattle.byte_provider.specs.Values.{sealing, opening, mate_first, shift};
ghost use Rattle.byte_provider.specs.Plans.{head_bytes, length_bytes, HeadFits};

use crate::span::Span;

// What a key's first byte says: 2, 3 and 6.
#[derive(Clone, Copy)]
pub(crate) enum KeyType {
    Shared,
    Public,
    Private,
}

// Whether a key's body is added to the bytes of a value or taken from them.
#[derive(Clone, Copy)]
pub(crate) enum Shift {
    Add,
    Subtract,
}

// The bytes that a value begins with.
#[derive(Clone, Copy)]
pub(crate) enum Head {
    One(u8),
    Two(u8, u8),
    Three(u8, u8, u8),
}

#[derive(Clone, Copy)]
pub(crate) enum Plan {
    // a head, then copies of two parts
    Copied(Head, Span, Span),
    // a content, each byte shifted by a key's body
    Shifted(Shift, Span, Span),
    // a part that stays where it is
    Part(Span),
}

impl KeyType {
    pub(crate) fn sealing(self) -> Shift
        ensures { result ≡ sealing self }
    {
        match self {
            KeyType::Shared | KeyType::Public => Shift::Add,
            KeyType::Private => Shift::Subtract,
        }
    }

    pub(crate) fn opening(self) -> Shift
        ensures { result ≡ opening self }
    {
        match self {
            KeyType::Shared | KeyType::Private => Shift::Subtract,
            KeyType::Public => Shift::Add,
        }
    }

    // The first byte of the mate.
    pub(crate) fn mate_first(self) -> u8
        ensures { result ≡ mate_first self }
    {
        match self {
            KeyType::Shared => 2,
            KeyType::Public => 6,
            KeyType::Private => 3,
        }
    }
}

impl Shift {
    // A byte shifted by another, modulo 256.
    pub(crate) fn apply(self, x: u8, by: u8) -> u8
        ensures { result ≡ shift self x by }
    {
        match self {
            Shift::Add => x.wrapping_add(by),
            Shift::Subtract => x.wrapping_sub(by),
        }
    }
}

impl Head {
    // The length of a left part, high byte first.
    pub(crate) fn of_length(n: usize) -> Self
        requires { n < 65536 }
        ensures { (head_bytes result ≡ length_bytes n) × (HeadFits result) }
    {
        Head::Two((n / 256) as u8, (n % 256) as u8)
    }

    pub(crate) fn len(self) -> usize
        ensures { (result ≡ length (head_bytes self)) × (result ≤ 3) }
    {
        match self {
            Head::One(_) => 1,
            Head::Two(_, _) => 2,
            Head::Three(_, _, _) => 3,
        }
    }
}
