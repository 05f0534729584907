// One token more.
ghost use Rattle.std.specs.Prelude.{◌≡◌, ℕ, ◌+◌, ◌≤◌, List, [], ◌∷◌, length, true, false, OnErr, MatchOption};
ghost use Rattle.syntax.specs.declared.mode.Mode.TheVariants.{EntryEnd, Start, Party, AfterKey, AfterSealer, AfterName, Listing};
ghost use Rattle.syntax.specs.declared.mode.Frame.{Frame as SomeFrame};
ghost use Rattle.syntax.specs.declared.mode.Frame.TheVariants.{Later};
ghost use Rattle.syntax.specs.Grammar.{GoesOn, Tok};
ghost use Rattle.syntax.specs.Uses.{use_after};
ghost use Rattle.syntax.specs.Machine.{at, stuck, heads, begins, follows, step, if_name, within_entry};
ghost use Rattle.syntax.specs.States.{HasRead, Steps, Takes, Tells, stack_of};

use super::{Machine, TokenFault};
use crate::mode::{Frame, Mode, NameUse};
use crate::sign::{Keyword, Sign};
use bounded::BoundedVec;
use scan::Shape;

impl Machine {
    // Before the first token of a line.
    pub fn new() -> Machine
        ensures { HasRead result [] }
    {
        Machine {
            mode: Mode::Fresh,
            frames: BoundedVec::new(Frame::First),
        }
    }

    // Goes on in a mode outside an entry.
    fn go(&mut self, mode: Mode) -> Result<(), TokenFault>
        requires { within_entry mode ≡ 0 }
        ensures { Takes (at mode (stack_of self.old)) result self.new }
    {
        self.mode = mode;
        Ok(())
    }

    // The square bracket of an entry.
    fn enter(&mut self) -> Result<(), TokenFault>
        ensures { Takes (at Party (stack_of self.old)) result self.new }
    {
        if self.frames.len() >= 64 {
            return Err(TokenFault::TooDeep);
        }
        self.mode = Mode::Party;
        Ok(())
    }

    // One more bracket, in which a term is due.
    fn push(&mut self, frame: Frame) -> Result<(), TokenFault>
        ensures { Takes (at Start (frame ∷ stack_of self.old)) result self.new }
    {
        self.frames.push(frame)?;
        self.mode = Mode::Start;
        Ok(())
    }

    // Closes the last bracket.
    fn pop(&mut self, mode: Mode) -> Result<(), TokenFault>
        requires { within_entry mode ≡ 0 }
        ensures { (f : SomeFrame) (fs : List SomeFrame) → stack_of self.old ≡ f ∷ fs → Takes (at mode fs) result self.new }
    {
        self.frames.truncate(self.frames.len().saturating_sub(1));
        self.mode = mode;
        Ok(())
    }

    // Goes on with no bracket open.
    fn restart(&mut self, mode: Mode) -> Result<(), TokenFault>
        requires { within_entry mode ≡ 0 }
        ensures { Takes (at mode []) result self.new }
    {
        self.frames.truncate(0);
        self.mode = mode;
        Ok(())
    }

    // The first sign of a line.
    fn head(&mut self, sign: Sign) -> Result<(), TokenFault>
        ensures { Takes (heads sign) result self.new }
    {
        match sign {
            Sign::Keyword(Keyword::Kind(_)) => self.restart(Mode::Kinded),
            Sign::Keyword(Keyword::Own) => self.restart(Mode::Owner),
            Sign::Keyword(Keyword::Line) => self.restart(Mode::Sender),
            Sign::End => self.restart(Mode::Done),
            Sign::Name | Sign::Opens(_) | Sign::Closes(_) | Sign::Tick | Sign::Stray => Err(
                TokenFault::Outside,
            ),
        }
    }

    // The first sign of a term.
    fn begin(&mut self, sign: Sign) -> Result<(), TokenFault>
        ensures { Takes (begins (stack_of self.old) sign) result self.new }
    {
        if sign.is_name() {
            self.go(Mode::AfterName)
        } else if sign.opens(Shape::Round) {
            self.push(Frame::First)
        } else if sign.opens(Shape::Curly) {
            self.push(Frame::Content)
        } else {
            Err(TokenFault::Outside)
        }
    }

    // The sign after a part of a tuple.
    fn part(&mut self, sign: Sign) -> Result<(), TokenFault>
        ensures { (f : SomeFrame) (fs : List SomeFrame) → stack_of self.old ≡ f ∷ fs → Takes (begins (Later ∷ fs) sign) result self.new }
    {
        self.frames
            .replace(self.frames.len().saturating_sub(1), Frame::Later);
        self.begin(sign)
    }

    // The last bracket that is open.
    fn top(&self) -> Option<Frame>
        ensures { MatchOption result (stack_of self.now ≡ []) (λ f. (fs : List SomeFrame) × (stack_of self.now ≡ f ∷ fs)) }
    {
        self.frames.as_slice().last().copied()
    }

    // The sign after a whole term.
    fn follow(&mut self, sign: Sign) -> Result<(), TokenFault>
        ensures { Takes (follows (stack_of self.old) sign) result self.new }
    {
        match self.top() {
            None if sign.is_end() => self.restart(Mode::Done),
            Some(Frame::First) => self.part(sign),
            Some(Frame::Later) if sign.closes(Shape::Round) => self.pop(Mode::After),
            Some(Frame::Later) => self.part(sign),
            Some(Frame::Content) if sign.closes(Shape::Curly) => self.pop(Mode::Sealer),
            Some(Frame::Digested) if sign.closes(Shape::Angle) => self.pop(Mode::After),
            None | Some(Frame::Content | Frame::Digested) => Err(TokenFault::Outside),
        }
    }

    // The sign after a whole key.
    fn follow_key(&mut self, sign: Sign) -> Result<(), TokenFault>
        ensures { Takes (step AfterKey (stack_of self.old) sign) result self.new }
    {
        if sign.is_tick() {
            self.go(Mode::AfterKey)
        } else {
            self.follow(sign)
        }
    }

    // The sign after the name of a sealing key.
    fn follow_sealer(&mut self, sign: Sign) -> Result<(), TokenFault>
        ensures { Takes (step AfterSealer (stack_of self.old) sign) result self.new }
    {
        if sign.opens(Shape::Square) {
            self.enter()
        } else {
            self.follow_key(sign)
        }
    }

    // The sign after a name.
    fn follow_name(&mut self, sign: Sign) -> Result<(), TokenFault>
        ensures { Takes (step AfterName (stack_of self.old) sign) result self.new }
    {
        if sign.opens(Shape::Square) {
            self.enter()
        } else if sign.opens(Shape::Angle) {
            self.push(Frame::Digested)
        } else {
            self.follow_key(sign)
        }
    }

    // A name, after which the line goes on in another mode.
    fn named(&mut self, sign: Sign, mode: Mode) -> Result<(), TokenFault>
        requires { within_entry mode ≡ 0 }
        ensures { Takes (if_name sign (at mode []) stuck) result self.new }
    {
        if sign.is_name() {
            self.restart(mode)
        } else {
            Err(TokenFault::Outside)
        }
    }

    // Another name of a declaration, or its end.
    fn another(&mut self, sign: Sign) -> Result<(), TokenFault>
        ensures { Takes (step Listing [] sign) result self.new }
    {
        if sign.is_name() {
            self.restart(Mode::Listing)
        } else if sign.is_end() {
            self.restart(Mode::Done)
        } else {
            Err(TokenFault::Outside)
        }
    }

    // The party of an entry has been read.
    fn end_entry(&mut self) -> Result<(), TokenFault>
        requires { self.old.mode ≡ Party }
        ensures { Takes (at EntryEnd (stack_of self.old)) result self.new }
    {
        self.mode = Mode::EntryEnd;
        Ok(())
    }

    // A sign, wherever the line is. After a refusal the mode and the brackets are of no use.
    fn turn(&mut self, sign: Sign) -> Result<(), TokenFault>
        ensures { Takes (step self.old.mode (stack_of self.old) sign) result self.new }
    {
        match self.mode {
            Mode::Fresh => self.head(sign),
            Mode::Kinded => self.named(sign, Mode::Listing),
            Mode::Listing => self.another(sign),
            Mode::Owner => self.named(sign, Mode::Start),
            Mode::Sender => self.named(sign, Mode::Receiver),
            Mode::Receiver => self.named(sign, Mode::Start),
            Mode::Start => self.begin(sign),
            Mode::AfterName => self.follow_name(sign),
            Mode::AfterSealer => self.follow_sealer(sign),
            Mode::AfterKey => self.follow_key(sign),
            Mode::After => self.follow(sign),
            Mode::Sealer if sign.is_name() => self.go(Mode::AfterSealer),
            Mode::Party if sign.is_name() => self.end_entry(),
            Mode::EntryEnd if sign.closes(Shape::Square) => self.go(Mode::AfterKey),
            Mode::Sealer | Mode::Party | Mode::EntryEnd | Mode::Done => Err(TokenFault::Outside),
        }
    }

    // One token of the line, by its sign. A refused token leaves all as it was.
    pub fn step(&mut self, sign: Sign) -> Result<(), TokenFault>
        ensures steps { Steps self.old sign result self.new }
        ensures same { OnErr result (self.new ≡ self.old) }
    {
        let mut next = *self;
        next.turn(sign)?;
        *self = next;
        Ok(())
    }

    // What the next token is for, if it is a name and the line is not over.
    pub fn name_use(&self) -> NameUse
        ensures { (ts : List Tok) → HasRead self.now ts → GoesOn ts → result ≡ use_after ts }
    {
        self.mode.name_use()
    }

    // Whether the line is over.
    pub fn is_done(&self) -> bool
        ensures { Tells self.now result }
    {
        self.mode.is_done()
    }
}
