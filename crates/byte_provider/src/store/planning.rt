// Working out how a value is made, with nothing written.
ghost use Rattle.std.specs.Prelude.{◌≡◌};
ghost use Rattle.std.specs.Option.{option_copied};
ghost use Rattle.provider.specs.Meaning.{stands};
ghost use Rattle.byte_provider.specs.Planned.{Halved, Keyed, Located, Planned};
ghost use Rattle.byte_provider.specs.State.{issued_of};
ghost use Rattle.provider.specs.declared.Making.TheVariants.{Atom, Join, Left, Right, Seal, Open, Digest, Entry, Mate};

use super::ByteProvider;
use crate::plan::{Head, KeyType, Plan};
use crate::span::Span;
use crate::value::{key_type, left_len, sum};
use provider::{Handle, Making};

impl ByteProvider {
    // Where the value of a handle lies.
    fn span(&self, handle: Handle) -> Option<Span>
        ensures { Located self.now handle result }
    {
        self.spans.get(handle)
    }

    // The bytes of a handle.
    pub(super) fn value(&self, handle: Handle) -> Option<&[u8]>
        ensures { option_copied result ≡ stands (issued_of self.now) handle }
    {
        Some(self.table.part(self.span(handle)?))
    }

    // Where the two parts of a joined value lie.
    fn halves(&self, joined: Handle) -> Option<(Span, Span)>
        ensures { Halved self.now joined result }
    {
        let pair = self.span(joined)?;
        let len = left_len(self.table.part(pair))?;
        let left = Span {
            start: pair.start + 2,
            len,
        };
        let right = Span {
            start: left.start + len,
            len: pair.len - 2 - len,
        };
        Some((left, right))
    }

    // The type of a key, and where its body lies.
    fn key(&self, key: Handle) -> Option<(KeyType, Span)>
        ensures { Keyed self.now key result }
    {
        let span = self.span(key)?;
        let kind = key_type(self.table.part(span))?;
        Some((kind, span.body()))
    }

    fn plan_atom(&self, kind: usize, id: usize) -> Option<Plan>
        ensures { Planned self.now (Atom kind id) result }
    {
        if kind <= 5 && id <= 65535 {
            let head = Head::Three(kind as u8, (id / 256) as u8, (id % 256) as u8);
            Some(Plan::Copied(head, Span::NONE, Span::NONE))
        } else {
            None
        }
    }

    fn plan_join(&self, left: Handle, right: Handle) -> Option<Plan>
        ensures { Planned self.now (Join left right) result }
    {
        let first = self.span(left)?;
        let second = self.span(right)?;
        Some(Plan::Copied(Head::of_length(first.len), first, second))
    }

    fn plan_left(&self, joined: Handle) -> Option<Plan>
        ensures { Planned self.now (Left joined) result }
    {
        let (left, _) = self.halves(joined)?;
        Some(Plan::Part(left))
    }

    fn plan_right(&self, joined: Handle) -> Option<Plan>
        ensures { Planned self.now (Right joined) result }
    {
        let (_, right) = self.halves(joined)?;
        Some(Plan::Part(right))
    }

    fn plan_seal(&self, content: Handle, key: Handle) -> Option<Plan>
        ensures { Planned self.now (Seal content key) result }
    {
        let content = self.span(content)?;
        let (kind, body) = self.key(key)?;
        Some(Plan::Shifted(kind.sealing(), content, body))
    }

    fn plan_open(&self, sealed: Handle, opener: Handle) -> Option<Plan>
        ensures { Planned self.now (Open sealed opener) result }
    {
        let sealed = self.span(sealed)?;
        let (kind, body) = self.key(opener)?;
        Some(Plan::Shifted(kind.opening(), sealed, body))
    }

    fn plan_digest(&self, function: Handle, operand: Handle) -> Option<Plan>
        ensures { Planned self.now (Digest function operand) result }
    {
        let function = self.value(function)?;
        let operand = self.value(operand)?;
        let sum = sum(function).wrapping_add(sum(operand));
        Some(Plan::Copied(Head::One(sum), Span::NONE, Span::NONE))
    }

    fn plan_entry(&self, table: Handle, party: Handle) -> Option<Plan>
        ensures { Planned self.now (Entry table party) result }
    {
        let table = self.span(table)?;
        let party = self.span(party)?;
        Some(Plan::Copied(Head::One(3), table, party))
    }

    fn plan_mate(&self, key: Handle) -> Option<Plan>
        ensures { Planned self.now (Mate key) result }
    {
        let (kind, body) = self.key(key)?;
        Some(Plan::Copied(Head::One(kind.mate_first()), body, Span::NONE))
    }

    // How a making's value is made; None where the making is wrong.
    pub(super) fn plan(&self, making: Making) -> Option<Plan>
        ensures { Planned self.now making result }
    {
        match making {
            Making::Atom(kind, id) => self.plan_atom(kind, id),
            Making::Join(left, right) => self.plan_join(left, right),
            Making::Left(joined) => self.plan_left(joined),
            Making::Right(joined) => self.plan_right(joined),
            Making::Seal(content, key) => self.plan_seal(content, key),
            Making::Open(sealed, opener) => self.plan_open(sealed, opener),
            Making::Digest(function, operand) => self.plan_digest(function, operand),
            Making::Entry(table, party) => self.plan_entry(table, party),
            Making::Mate(key) => self.plan_mate(key),
        }
    }
}
