// The text and how far it has been read; its calls stand in the module below it.
ghost use Rattle.std.specs.Prelude.{◌≤◌, length};

use crate::byte::Bracket;

mod calls;

// What a part of the text is. Its place goes beside it.
#[derive(Clone, Copy, Debug)]
pub enum Token<'a> {
    Word(&'a [u8]),
    Bracket(Bracket),
    Tick,
    LineEnd,
}

// The place of a byte that begins no token.
#[derive(Clone, Copy, PartialEq, Eq, Debug)]
pub struct StrayByte(pub usize);

#[derive(Clone, Copy)]
pub struct Scanner<'a> {
    text: &'a [u8],
    pos: usize,
    ghost within: { pos ≤ length text.now },
}
