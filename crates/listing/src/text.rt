// Text that is written byte by byte into lent memory.
ghost use Rattle.std.specs.Prelude.{◌≡◌, ◌+◌, ◌<◌, ◌^◌, [], ◌∷◌, decimal, length};
ghost use Rattle.listing.specs.Listing.{line_of, listing_of, spaced, spaced_operands};
ghost use Rattle.listing.specs.Text.{Begins, Puts};

use crate::words::{operands, word};
use protocol::Agent;
use scripts::{Instruction, Line};

// As many of its bytes as fit into the memory, and how many it has.
#[derive(Drop)]
pub(crate) struct Text<'a> {
    memory: &'a mut [u8],
    len: usize,
}

impl<'a> Text<'a> {
    // A text with no byte yet.
    pub(crate) fn new(memory: &'a mut [u8]) -> Text<'a>
        ensures { Begins memory.entry result }
    {
        Text { memory, len: 0 }
    }

    pub(crate) fn len(&self) -> usize
        ensures { result ≡ self.now.len }
    {
        self.len
    }

    // One byte more.
    fn byte(&mut self, byte: u8)
        requires { self.old.len + 1 < 2 ^ 64 }
        ensures { Puts self.old (byte ∷ []) self.new }
    {
        if self.len < self.memory.len() {
            self.memory[self.len] = byte;
        }
        self.len += 1;
    }

    fn word(&mut self, word: &str)
        requires { self.old.len + length word.now < 2 ^ 64 }
        ensures { Puts self.old word.now self.new }
    {
        for byte in word.as_bytes() {
            self.byte(*byte);
        }
    }

    // A number in decimal.
    #[tactic(auto, using(crate::proofs::Lengths::digit_more, crate::proofs::Lengths::one_digit))]
    fn number(&mut self, number: usize)
        requires { self.old.len + length (decimal number) < 2 ^ 64 }
        ensures { Puts self.old (decimal number) self.new }
    {
        if number >= 10 {
            self.number(number / 10);
        }
        self.byte(b'0' + (number % 10) as u8);
    }

    fn space(&mut self)
        requires { self.old.len + 1 < 2 ^ 64 }
        ensures { Puts self.old (32 ∷ []) self.new }
    {
        self.byte(b' ');
    }

    fn line_end(&mut self)
        requires { self.old.len + 1 < 2 ^ 64 }
        ensures { Puts self.old (10 ∷ []) self.new }
    {
        self.byte(b'\n');
    }

    // A number after a space.
    fn operand(&mut self, number: usize)
        requires { self.old.len + length (spaced number) < 2 ^ 64 }
        ensures { Puts self.old (spaced number) self.new }
    {
        self.space();
        self.number(number);
    }

    fn operands(&mut self, op: Instruction)
        requires { self.old.len + length (spaced_operands op) < 2 ^ 64 }
        ensures { Puts self.old (spaced_operands op) self.new }
    {
        let (first, second) = operands(op);
        self.operand(first);
        if let Some(second) = second {
            self.operand(second);
        }
    }

    #[tactic(auto, using(crate::proofs::Lengths::line_length))]
    fn line(&mut self, agent: Agent, number: usize, op: Instruction)
        requires { self.old.len + length (line_of agent number op) < 2 ^ 64 }
        ensures { Puts self.old (line_of agent number op) self.new }
    {
        self.number(agent);
        self.operand(number);
        self.space();
        self.word(word(op));
        self.operands(op);
        self.line_end();
    }

    // A line for each instruction.
    #[tactic(auto, using(crate::proofs::Lengths::line_within))]
    pub(crate) fn lines(&mut self, agent: Agent, lines: &[Line])
        requires { self.old.len + length (listing_of agent lines.now) < 2 ^ 64 }
        ensures { Puts self.old (listing_of agent lines.now) self.new }
    {
        for (number, line) in lines.iter().enumerate() {
            self.line(agent, number, line.op);
        }
    }
}
