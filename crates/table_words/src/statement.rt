// A refused text as its sentence sees it.
use crate::notation::Table;
use crate::place::last_line;
use scan::Scanner;

// The text, and what it had made at the refusal.
#[derive(Clone, Copy)]
pub(crate) struct Statement<'a> {
    pub(crate) text: &'a [u8],
    pub(crate) table: Table<'a>,
}

impl<'a> Statement<'a> {
    // The text from a place on.
    pub(crate) fn from(self, place: usize) -> Scanner<'a> {
        Scanner::new(self.text.get(place..).unwrap_or(b""))
    }

    // The line of a place up to the place.
    pub(crate) fn line_before(self, place: usize) -> Scanner<'a> {
        let before = self.text.get(..place).unwrap_or(self.text);
        Scanner::new(before.get(last_line(before)..).unwrap_or(b""))
    }
}
