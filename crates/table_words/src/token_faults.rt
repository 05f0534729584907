// Sentences on a token that is refused: outside the grammar, undeclared, declared twice, too deep.
use crate::due::{Due, sign_name};
use crate::kinds::kind_name;
use crate::statement::Statement;
use crate::tokens::next_token;
use crate::word::Word;
use scan::{Bracket, Shape, StrayByte, Token};
use std::fmt;
use syntax::{NameUse, Sign, sign_of};
use terms::Kind;

// A byte that begins no token.
fn write_stray<W: fmt::Write>(f: &mut fmt::Formatter<W>, byte: u8) -> fmt::Result {
    match byte {
        b'\t' => write!(f, "a tab")?,
        b'\r' => write!(f, "a carriage return")?,
        b'!'..=b'~' => write!(f, "'{}'", char::from(byte))?,
        _ => write!(f, "byte {byte}")?,
    }
    write!(f, " stands for nothing in a table")
}

// A word that cannot stand where it does.
fn write_word<W: fmt::Write>(f: &mut fmt::Formatter<W>, word: &[u8]) -> fmt::Result {
    match sign_of(Token::Word(word)) {
        Sign::Stray if word.len() > 16 => {
            write!(
                f,
                "'{}' is longer than a name, which has at most 16 letters and digits",
                Word(word)
            )
        }
        Sign::Stray => write!(
            f,
            "'{}' is no name, since it begins with a digit",
            Word(word)
        ),
        Sign::Keyword(_) => write!(
            f,
            "'{}' begins a line, and no name is called so",
            Word(word)
        ),
        _ => write!(f, "'{}' cannot stand here", Word(word)),
    }
}

// What is wrong at a place.
fn write_outside<W: fmt::Write>(
    f: &mut fmt::Formatter<W>,
    statement: Statement<'_>,
    place: usize,
) -> fmt::Result {
    match statement.from(place).next() {
        Ok((Token::Word(word), _)) => write_word(f, word),
        Ok((Token::LineEnd, _)) => write!(f, "the line cannot end here"),
        Ok((token, _)) => {
            write!(
                f,
                "{} cannot stand here",
                sign_name(sign_of(token), NameUse::Part)
            )
        }
        Err(StrayByte(_)) => write_stray(f, statement.text.get(place).copied().unwrap_or(0)),
    }
}

// A token that no line of the grammar can have there.
pub(crate) fn write_outside_grammar<W: fmt::Write>(
    f: &mut fmt::Formatter<W>,
    statement: Statement<'_>,
    place: usize,
) -> fmt::Result {
    write_outside(f, statement, place)?;
    write!(f, ": {}", Due::at(statement, place))
}

// The word at a place.
fn word_at<'a>(statement: Statement<'a>, place: usize) -> &'a [u8] {
    match statement.from(place).next() {
        Ok((Token::Word(word), _)) => word,
        _ => b"?",
    }
}

// The kind that a name should be declared as, from its use and from what stands behind it, if these tell.
fn kind_for(statement: Statement<'_>, place: usize, usage: NameUse) -> Option<Kind> {
    let mut scanner = statement.from(place);
    let _name = next_token(&mut scanner);
    match (usage, next_token(&mut scanner)) {
        (NameUse::Agent, _) => Some(Kind::Party),
        (_, Some(Token::Bracket(Bracket::Opens(Shape::Square)))) => Some(Kind::Table),
        (_, Some(Token::Bracket(Bracket::Opens(Shape::Angle)))) => Some(Kind::Function),
        _ => None,
    }
}

fn keyword_of(kind: Option<Kind>) -> &'static str {
    match kind {
        Some(Kind::Party) => "party",
        Some(Kind::Shared) => "shared",
        Some(Kind::Public) => "public",
        Some(Kind::Table) => "table",
        Some(Kind::Function) => "function",
        Some(Kind::Number) | None => "number",
    }
}

// A name that is not declared, or is no party where an agent is due.
pub(crate) fn write_undeclared<W: fmt::Write>(
    f: &mut fmt::Formatter<W>,
    statement: Statement<'_>,
    place: usize,
) -> fmt::Result {
    let word = word_at(statement, place);
    let shown = Word(word);
    if let Some(named) = statement.table.names.get(word) {
        let kind = kind_name(named.kind);
        return write!(
            f,
            "'{shown}' is {kind}, and only parties start with something, send and receive: write the name of a party"
        );
    }
    let kind = kind_for(statement, place, Due::at(statement, place).name_use());
    write!(
        f,
        "'{shown}' is not declared: declare it in a line before, "
    )?;
    if kind.is_none() {
        write!(f, "with its kind, ")?;
    }
    write!(f, "as in '{} {shown}'", keyword_of(kind))
}

// A name that is declared already.
pub(crate) fn write_declared_twice<W: fmt::Write>(
    f: &mut fmt::Formatter<W>,
    statement: Statement<'_>,
    place: usize,
) -> fmt::Result {
    let word = word_at(statement, place);
    let shown = Word(word);
    match statement.table.names.get(word) {
        Some(named) => write!(
            f,
            "'{shown}' is declared already, as {}",
            kind_name(named.kind)
        )?,
        None => write!(f, "'{shown}' stands twice in this declaration")?,
    }
    write!(f, ": leave it out, or choose another name")
}

// A bracket that is too deep.
pub(crate) fn write_too_deep<W: fmt::Write>(f: &mut fmt::Formatter<W>) -> fmt::Result {
    write!(
        f,
        "this would be the 65th bracket open at once, and 64 may be: write the message with fewer brackets inside each other"
    )
}
