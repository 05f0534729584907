// What the table keeps for one term, and what may be built from what.
ghost use Rattle.std.specs.Prelude.{◌≡◌};
ghost use Rattle.terms.specs.Node.{kind_number, KindAt, FormAt, is_key, is_named, is_asymmetric, parts_fit, mate_case};

// The number of a term, from 0 in order of first appearance.
pub type TermId = usize;

// The kinds of names, numbered from 0 in this order.
#[derive(Clone, Copy, PartialEq, Eq, Debug)]
pub enum Kind {
    Party,
    Number,
    Shared,
    Public,
    Table,
    Function,
}

// The two-part forms, numbered from 0 in this order: pair (left, right), sealed (content, key), digest (function, term),
// entry (table, party).
#[derive(Clone, Copy, PartialEq, Eq, Debug)]
pub enum Form {
    Pair,
    Sealed,
    Digest,
    Entry,
}

// A number that no kind has.
#[derive(Clone, Copy, PartialEq, Eq, Debug)]
pub struct UnknownKind(pub usize);

impl TryFrom<usize> for Kind {
    type Error = UnknownKind;

    ghost try_from_gives = { KindAt };

    fn try_from(number: usize) -> Result<Self, UnknownKind> {
        match number {
            0 => Ok(Kind::Party),
            1 => Ok(Kind::Number),
            2 => Ok(Kind::Shared),
            3 => Ok(Kind::Public),
            4 => Ok(Kind::Table),
            5 => Ok(Kind::Function),
            _ => Err(UnknownKind(number)),
        }
    }
}

impl From<Kind> for usize {
    ghost from_gives = { λ kind number. number ≡ kind_number kind };

    fn from(kind: Kind) -> usize {
        kind as usize
    }
}

// A number that no form has.
#[derive(Clone, Copy, PartialEq, Eq, Debug)]
pub struct UnknownForm(pub usize);

impl TryFrom<usize> for Form {
    type Error = UnknownForm;

    ghost try_from_gives = { FormAt };

    fn try_from(number: usize) -> Result<Self, UnknownForm> {
        match number {
            0 => Ok(Form::Pair),
            1 => Ok(Form::Sealed),
            2 => Ok(Form::Digest),
            3 => Ok(Form::Entry),
            _ => Err(UnknownForm(number)),
        }
    }
}

// One term by the numbers of its parts: a name with its kind and identity, a two-part term, or the mate of a key.
#[derive(Clone, Copy, PartialEq, Eq, Debug)]
pub enum TermNode {
    Name(Kind, usize),
    Built(Form, TermId, TermId),
    Mate(TermId),
}

// Why a term is refused: a part is no term, a part is of a wrong kind, there is no place left.
#[derive(Clone, Copy, PartialEq, Eq, Debug)]
pub enum TermError {
    Unknown,
    WrongKind,
    Full,
}

// Where the mate of a key is: it is the key itself, the key inside, or a term apart.
#[derive(Clone, Copy)]
pub enum MateCase {
    Itself,
    Inside(TermId),
    Apart,
}

// A key is a shared or public key, an entry or a mate.
pub(crate) fn is_key(node: TermNode) -> bool
    ensures { result ≡ is_key node }
{
    matches!(
        node,
        TermNode::Name(Kind::Shared | Kind::Public, _)
            | TermNode::Built(Form::Entry, _, _)
            | TermNode::Mate(_)
    )
}

// The keys on which a mate is built: a public key or an entry.
pub(crate) fn is_asymmetric(node: TermNode) -> bool
    ensures { result ≡ is_asymmetric node }
{
    matches!(
        node,
        TermNode::Name(Kind::Public, _) | TermNode::Built(Form::Entry, _, _)
    )
}

// A name of the kind.
pub(crate) fn is_named(kind: Kind, node: TermNode) -> bool
    ensures { result ≡ is_named kind node }
{
    matches!(node, TermNode::Name(own, _) if own == kind)
}

// The two parts are such as the form asks for.
pub(crate) fn parts_fit(form: Form, a: TermNode, b: TermNode) -> bool
    ensures { result ≡ parts_fit form a b }
{
    match form {
        Form::Pair => true,
        Form::Sealed => is_key(b),
        Form::Digest => is_named(Kind::Function, a),
        Form::Entry => is_named(Kind::Table, a) && is_named(Kind::Party, b),
    }
}

// Where the mate of a key is; none for what is no key.
pub(crate) fn mate_case(node: TermNode) -> Option<MateCase>
    ensures { result ≡ mate_case node }
{
    match node {
        TermNode::Name(Kind::Shared, _) => Some(MateCase::Itself),
        TermNode::Name(Kind::Public, _) => Some(MateCase::Apart),
        TermNode::Built(Form::Entry, _, _) => Some(MateCase::Apart),
        TermNode::Mate(key) => Some(MateCase::Inside(key)),
        TermNode::Name(_, _) | TermNode::Built(_, _, _) => None,
    }
}
