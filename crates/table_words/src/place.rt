// Places in a text for people.
ghost use Rattle.std.specs.Prelude.{◌≡◌, count_by};
ghost use Rattle.table_words.specs.Place.{BeginsLast, IsPlace, is_end};

// Both count from 1.
#[derive(Clone, Copy, PartialEq, Eq, Debug)]
pub struct Place {
    pub line: usize,
    pub column: usize,
}

// How many lines end in a text.
fn line_ends(text: &[u8]) -> usize
    ensures { result ≡ count_by is_end text.now }
{
    let mut ends = 0;
    for byte in text {
        if *byte == b'\n' {
            ends += 1;
        }
    }
    ends
}

// Where the last line of a text begins.
pub(crate) fn last_line(text: &[u8]) -> usize
    ensures { BeginsLast text.now result }
{
    let mut begin = 0;
    for (place, byte) in text.iter().enumerate() {
        if *byte == b'\n' {
            begin = place + 1;
        }
    }
    begin
}

impl Place {
    // The place of a byte of a text, or of its end.
    pub fn of(text: &[u8], byte: usize) -> Place
        ensures { IsPlace text.now byte result }
    {
        let before = &text[..byte.min(text.len())];
        Place {
            line: line_ends(before) + 1,
            column: before.len() - last_line(before) + 1,
        }
    }
}
