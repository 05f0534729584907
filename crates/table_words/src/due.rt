// What may stand at a place of a line.
use crate::statement::Statement;
use crate::tokens::next_token;
use scan::Shape;
use std::fmt;
use syntax::{Keyword, Machine, NameUse, Sign, sign_of};
use terms::Kind;

// All that may stand somewhere, but the line's end, in the order in which a sentence names it.
const SIGNS: [Sign; 18] = [
    Sign::Keyword(Keyword::Kind(Kind::Party)),
    Sign::Keyword(Keyword::Kind(Kind::Number)),
    Sign::Keyword(Keyword::Kind(Kind::Shared)),
    Sign::Keyword(Keyword::Kind(Kind::Public)),
    Sign::Keyword(Keyword::Kind(Kind::Table)),
    Sign::Keyword(Keyword::Kind(Kind::Function)),
    Sign::Keyword(Keyword::Own),
    Sign::Keyword(Keyword::Line),
    Sign::Name,
    Sign::Opens(Shape::Round),
    Sign::Opens(Shape::Curly),
    Sign::Opens(Shape::Square),
    Sign::Opens(Shape::Angle),
    Sign::Closes(Shape::Round),
    Sign::Closes(Shape::Curly),
    Sign::Closes(Shape::Square),
    Sign::Closes(Shape::Angle),
    Sign::Tick,
];

// What may stand behind the tokens that a machine has read.
#[derive(Clone, Copy)]
pub(crate) struct Due {
    machine: Machine,
}

impl Due {
    // What may stand at the place of a token.
    pub(crate) fn at(statement: Statement<'_>, place: usize) -> Due {
        let mut scanner = statement.line_before(place);
        let mut machine = Machine::new();
        while let Some(token) = next_token(&mut scanner) {
            let _granted = machine.step(sign_of(token));
        }
        Due { machine }
    }

    // What a name would be used as there.
    pub(crate) fn name_use(self) -> NameUse {
        self.machine.name_use()
    }

    pub(crate) fn may_be(self, sign: Sign) -> bool {
        let mut machine = self.machine;
        machine.step(sign).is_ok()
    }

    // How many signs but the line's end may stand there.
    fn count(self) -> usize {
        SIGNS.iter().filter(|sign| self.may_be(**sign)).count()
    }

    // Writes these, with `or` in front of the last.
    fn write<W: fmt::Write>(self, f: &mut fmt::Formatter<W>) -> fmt::Result {
        let count = self.count();
        let due = SIGNS.iter().filter(|sign| self.may_be(**sign));
        for (number, sign) in due.enumerate() {
            if number > 0 {
                write!(f, "{}", if number + 1 < count { ", " } else { " or " })?;
            }
            write!(f, "{}", sign_name(*sign, self.name_use()))?;
        }
        Ok(())
    }
}

// `write 'a', 'b' or 'c'`, as far as it is the same for all tokens.
impl fmt::Display for Due {
    fn fmt<W: fmt::Write>(&self, f: &mut fmt::Formatter<W>) -> fmt::Result {
        match (self.count() > 0, self.may_be(Sign::End)) {
            (true, true) => {
                write!(f, "write ")?;
                self.write(f)?;
                write!(f, ", or end the line here")
            }
            (true, false) => {
                write!(f, "write ")?;
                self.write(f)?;
                write!(f, " here")
            }
            (false, _) => write!(f, "end the line here"),
        }
    }
}

// What a sign is called.
pub(crate) fn sign_name(sign: Sign, usage: NameUse) -> &'static str {
    match sign {
        Sign::Name => match usage {
            NameUse::Declared => "a new name",
            NameUse::Agent => "the name of a party",
            NameUse::Part => "a name",
        },
        Sign::Keyword(keyword) => keyword_name(keyword),
        Sign::Opens(Shape::Round) => "'('",
        Sign::Opens(Shape::Curly) => "'{'",
        Sign::Opens(Shape::Square) => "'['",
        Sign::Opens(Shape::Angle) => "'<'",
        Sign::Closes(Shape::Round) => "')'",
        Sign::Closes(Shape::Curly) => "'}'",
        Sign::Closes(Shape::Square) => "']'",
        Sign::Closes(Shape::Angle) => "'>'",
        Sign::Tick => "a tick",
        Sign::End => "the line's end",
        Sign::Stray => "something else",
    }
}

fn keyword_name(keyword: Keyword) -> &'static str {
    match keyword {
        Keyword::Kind(Kind::Party) => "'party'",
        Keyword::Kind(Kind::Number) => "'number'",
        Keyword::Kind(Kind::Shared) => "'shared'",
        Keyword::Kind(Kind::Public) => "'public'",
        Keyword::Kind(Kind::Table) => "'table'",
        Keyword::Kind(Kind::Function) => "'function'",
        Keyword::Own => "'own'",
        Keyword::Line => "'line'",
    }
}
