// Bytes of a text as they stand there.
ghost use Rattle.std.specs.Prelude.{Some, encode_utf8_all};

use std::fmt;

// The longest that is shown of a word.
const SHOWN: usize = 16;

// Each byte as the character of its number.
#[derive(Clone, Copy)]
pub(crate) struct Letters<'a>(pub(crate) &'a [u8]);

impl fmt::Display for Letters<'_> {
    ghost output = { λ letters. Some (encode_utf8_all letters.0.now) };

    fn fmt<W: fmt::Write>(&self, f: &mut fmt::Formatter<W>) -> fmt::Result {
        for byte in self.0 {
            write!(f, "{}", char::from(*byte))?;
        }
        Ok(())
    }
}

// A word that may be no name, and then as long as the text.
#[derive(Clone, Copy)]
pub(crate) struct Word<'a>(pub(crate) &'a [u8]);

impl fmt::Display for Word<'_> {
    fn fmt<W: fmt::Write>(&self, f: &mut fmt::Formatter<W>) -> fmt::Result {
        match self.0.get(..SHOWN) {
            Some(shown) if self.0.len() > SHOWN => write!(f, "{}..", Letters(shown)),
            _ => write!(f, "{}", Letters(self.0)),
        }
    }
}
