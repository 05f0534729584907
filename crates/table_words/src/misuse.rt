// Names that are used as what they are not.
use crate::kinds::kind_name;
use crate::statement::Statement;
use crate::tokens::next_token;
use crate::word::Word;
use names::Names;
use scan::{Bracket, Shape, Token};
use std::fmt;
use terms::Kind;

// What a name is used as.
#[derive(Clone, Copy)]
enum Use {
    // behind a sealed content
    Sealer,
    // in front of a tick
    Ticked,
    // in front of '['
    Table,
    // between '[' and ']'
    Owner,
    // in front of '<'
    Function,
}

// A name, what it was declared as, and what it is used as.
#[derive(Clone, Copy)]
pub(crate) struct Misuse<'a> {
    word: &'a [u8],
    kind: Kind,
    usage: Use,
}

fn is_key(kind: Kind) -> bool {
    matches!(kind, Kind::Shared | Kind::Public)
}

fn fits(kind: Kind, usage: Use) -> bool {
    match usage {
        Use::Sealer | Use::Ticked => is_key(kind),
        Use::Table => kind == Kind::Table,
        Use::Owner => kind == Kind::Party,
        Use::Function => kind == Kind::Function,
    }
}

// What the name is used as that stands between two tokens, where its kind matters.
fn use_between(before: Option<Token<'_>>, behind: Option<Token<'_>>) -> Option<Use> {
    match (before, behind) {
        (Some(Token::Bracket(Bracket::Opens(Shape::Square))), _) => Some(Use::Owner),
        (_, Some(Token::Bracket(Bracket::Opens(Shape::Square)))) => Some(Use::Table),
        (_, Some(Token::Bracket(Bracket::Opens(Shape::Angle)))) => Some(Use::Function),
        (Some(Token::Bracket(Bracket::Closes(Shape::Curly))), _) => Some(Use::Sealer),
        (_, Some(Token::Tick)) => Some(Use::Ticked),
        _ => None,
    }
}

// The misuse of a token between two others, if it is one.
fn misuse_of<'a>(
    names: &Names<'_>,
    before: Option<Token<'a>>,
    token: Token<'a>,
    behind: Option<Token<'a>>,
) -> Option<Misuse<'a>> {
    let Token::Word(word) = token else {
        return None;
    };
    let kind = names.get(word)?.kind;
    let usage = use_between(before, behind)?;
    (!fits(kind, usage)).then_some(Misuse { word, kind, usage })
}

// The first in the line that begins at a place.
pub(crate) fn first_misuse<'a>(statement: Statement<'a>, line: usize) -> Option<Misuse<'a>> {
    let mut scanner = statement.from(line);
    let mut before = None;
    while let Some(token) = next_token(&mut scanner) {
        let mut ahead = scanner;
        let found = misuse_of(statement.table.names, before, token, next_token(&mut ahead));
        if found.is_some() {
            return found;
        }
        before = Some(token);
    }
    None
}

impl fmt::Display for Misuse<'_> {
    fn fmt<W: fmt::Write>(&self, f: &mut fmt::Formatter<W>) -> fmt::Result {
        let word = Word(self.word);
        write!(f, "{word} is {}", kind_name(self.kind))?;
        match self.usage {
            Use::Sealer => write!(
                f,
                " and seals nothing: seal under a shared or public key, an entry or the mate of one"
            ),
            Use::Ticked => write!(
                f,
                " and has no mate: write the tick behind a shared or public key or an entry"
            ),
            Use::Table => write!(
                f,
                " and has no entries: write the name of a table in front of '['"
            ),
            Use::Owner => write!(
                f,
                " and has no entry in a table: write the name of a party between '[' and ']'"
            ),
            Use::Function => write!(
                f,
                " and makes no digest: write the name of a function in front of '<'"
            ),
        }
    }
}
