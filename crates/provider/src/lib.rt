// What a crypto provider is: it keeps values under handles that it issues, and makes new values of old ones.
//
// A provider means two things at every moment: the values that its handles stand for, and the makings that fit. Its laws
// say what sealing and opening, joining and halving, keys and their mates are to each other. Code that uses providers is
// written and proved once, against this meaning, and holds on every provider that keeps the laws.

#![tactic(auto)]

ghost use Rattle.std.specs.Prelude.{◌≡◌, ℕ, Result, Some};
ghost use Rattle.provider.specs.Algebra.{Algebra, Halves, Mates, Seals, Builds};
ghost use Rattle.provider.specs.Errors.{message_of};
ghost use Rattle.provider.specs.Meaning.{Meaning, Answers, Same, Unfit, Holds};
ghost use Rattle.provider.specs.Reopening.{Reopened};
ghost use Rattle.provider.specs.declared.Making.{Making};
ghost use Rattle.provider.specs.declared.ProviderError.{ProviderError};
ghost use Rattle.provider.specs.declared.Making.TheVariants.{Atom, Join, Left, Right, Seal, Open, Digest, Entry, Mate};

use std::fmt;

// A number by which a provider knows a value. Any number may be asked about; only issued ones stand for a value.
pub type Handle = usize;

// A call that makes a value, by the handles of its operands.
#[derive(Clone, Copy, PartialEq, Eq, Debug)]
pub enum Making {
    // kind and id
    Atom(usize, usize),
    // the parts in order
    Join(Handle, Handle),
    Left(Handle),
    Right(Handle),
    // content and key
    Seal(Handle, Handle),
    // sealed value and opener
    Open(Handle, Handle),
    // function and operand
    Digest(Handle, Handle),
    // table and party
    Entry(Handle, Handle),
    Mate(Handle),
}

// Why a making was refused: its operands are wrong for it, or there is no room for what it makes.
#[derive(Clone, Copy, PartialEq, Eq, Debug)]
pub enum ProviderError {
    Wrong,
    Full,
}

impl fmt::Display for ProviderError {
    ghost output = { λ e. Some (message_of e) };

    fn fmt<W: fmt::Write>(&self, f: &mut fmt::Formatter<W>) -> fmt::Result {
        match self {
            ProviderError::Wrong => write!(f, "the provider calls a making wrong"),
            ProviderError::Full => write!(f, "the provider is full"),
        }
    }
}

pub trait Provider {
    // what a handle stands for
    ghost value: { Type 0 };

    // the values that the provider can hold: the laws are owed for these
    ghost proper: { value → Type 0 };

    // what the makings make of values
    ghost algebra: { Algebra value };

    // the issued handles with their values, and the makings that fit
    ghost meaning: { Self → Meaning value };

    // the whole outcome of a making, which says more than its answer
    ghost outcome: { Self → Making → Result ℕ ProviderError → Self → Type 0 };

    // Carries out a making.
    fn make(&mut self, making: Making) -> Result<Handle, ProviderError>
        ensures answers { Answers algebra meaning self.old making result self.new }
        ensures outcome { outcome self.old making result self.new };

    fn atom(&mut self, kind: usize, id: usize) -> Result<Handle, ProviderError>
        ensures answers { Answers algebra meaning self.old (Atom kind id) result self.new }
        ensures outcome { outcome self.old (Atom kind id) result self.new }
    {
        self.make(Making::Atom(kind, id))
    }

    fn join(&mut self, left: Handle, right: Handle) -> Result<Handle, ProviderError>
        ensures answers { Answers algebra meaning self.old (Join left right) result self.new }
        ensures outcome { outcome self.old (Join left right) result self.new }
    {
        self.make(Making::Join(left, right))
    }

    fn left(&mut self, joined: Handle) -> Result<Handle, ProviderError>
        ensures answers { Answers algebra meaning self.old (Left joined) result self.new }
        ensures outcome { outcome self.old (Left joined) result self.new }
    {
        self.make(Making::Left(joined))
    }

    fn right(&mut self, joined: Handle) -> Result<Handle, ProviderError>
        ensures answers { Answers algebra meaning self.old (Right joined) result self.new }
        ensures outcome { outcome self.old (Right joined) result self.new }
    {
        self.make(Making::Right(joined))
    }

    fn seal(&mut self, content: Handle, key: Handle) -> Result<Handle, ProviderError>
        ensures answers { Answers algebra meaning self.old (Seal content key) result self.new }
        ensures outcome { outcome self.old (Seal content key) result self.new }
    {
        self.make(Making::Seal(content, key))
    }

    fn open(&mut self, sealed: Handle, opener: Handle) -> Result<Handle, ProviderError>
        ensures answers { Answers algebra meaning self.old (Open sealed opener) result self.new }
        ensures outcome { outcome self.old (Open sealed opener) result self.new }
    {
        self.make(Making::Open(sealed, opener))
    }

    fn digest(&mut self, function: Handle, operand: Handle) -> Result<Handle, ProviderError>
        ensures answers { Answers algebra meaning self.old (Digest function operand) result self.new }
        ensures outcome { outcome self.old (Digest function operand) result self.new }
    {
        self.make(Making::Digest(function, operand))
    }

    fn entry(&mut self, table: Handle, party: Handle) -> Result<Handle, ProviderError>
        ensures answers { Answers algebra meaning self.old (Entry table party) result self.new }
        ensures outcome { outcome self.old (Entry table party) result self.new }
    {
        self.make(Making::Entry(table, party))
    }

    fn mate(&mut self, key: Handle) -> Result<Handle, ProviderError>
        ensures answers { Answers algebra meaning self.old (Mate key) result self.new }
        ensures outcome { outcome self.old (Mate key) result self.new }
    {
        self.make(Making::Mate(key))
    }

    // Whether two handles stand for one value.
    fn same(&self, a: Handle, b: Handle) -> bool
        ensures { Same (meaning self.now).issued a b result };

    // Whether a making would be granted now.
    fn fits(&self, making: Making) -> bool
        ensures { result ≡ (meaning self.now).fits making };

    ghost holds: { (s : Self) → Holds proper (meaning s) };

    ghost unfit: { (s : Self) → Unfit algebra (meaning s) };

    ghost halves: { Halves proper algebra };

    ghost mates: { Mates proper algebra };

    ghost seals: { Seals proper algebra };

    ghost builds: { Builds proper algebra };
}

// Seals a content under a key, makes the key's mate and opens with it.
fn round_trip<P: Provider>(
    provider: &mut P,
    content: Handle,
    key: Handle,
) -> Result<Handle, ProviderError>
    ensures { Reopened P.algebra P.meaning provider.old content key result provider.new }
{
    let sealed = provider.seal(content, key)?;
    let opener = provider.mate(key)?;
    provider.open(sealed, opener)
}

// Seals a content under a key and opens it again with the key's mate: the same value, on every provider.
pub fn reopen<P: Provider>(
    provider: &mut P,
    content: Handle,
    key: Handle,
) -> Result<Handle, ProviderError>
    ensures { Reopened P.algebra P.meaning provider.old content key result provider.new }
{
    round_trip(provider, content, key)
}
