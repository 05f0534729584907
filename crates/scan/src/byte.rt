// What a byte is to the scanner.
ghost use Rattle.std.specs.Prelude.{◌≡◌, ◌<◌, ◌≤◌, ◌≢◌, length, slice_index};
ghost use Rattle.scan.specs.Bytes.{AllOf, class};

// The four sorts of brackets.
#[derive(Clone, Copy, PartialEq, Eq, Debug)]
pub enum Shape {
    Round,
    Curly,
    Square,
    Angle,
}

#[derive(Clone, Copy, PartialEq, Eq, Debug)]
pub enum Bracket {
    Opens(Shape),
    Closes(Shape),
}

#[derive(Clone, Copy, PartialEq, Eq, Debug)]
pub(crate) enum ByteClass {
    Space,
    LineEnd,
    Tick,
    Bracket(Bracket),
    // a letter or a digit
    Word,
    Stray,
}

impl ByteClass {
    pub(crate) fn of(byte: u8) -> ByteClass
        ensures { result ≡ class byte }
    {
        match byte {
            b' ' => ByteClass::Space,
            b'\n' => ByteClass::LineEnd,
            b'\'' => ByteClass::Tick,
            b'(' => ByteClass::Bracket(Bracket::Opens(Shape::Round)),
            b')' => ByteClass::Bracket(Bracket::Closes(Shape::Round)),
            b'{' => ByteClass::Bracket(Bracket::Opens(Shape::Curly)),
            b'}' => ByteClass::Bracket(Bracket::Closes(Shape::Curly)),
            b'[' => ByteClass::Bracket(Bracket::Opens(Shape::Square)),
            b']' => ByteClass::Bracket(Bracket::Closes(Shape::Square)),
            b'<' => ByteClass::Bracket(Bracket::Opens(Shape::Angle)),
            b'>' => ByteClass::Bracket(Bracket::Closes(Shape::Angle)),
            _ if byte.is_ascii_alphanumeric() => ByteClass::Word,
            _ => ByteClass::Stray,
        }
    }
}

// The end of the longest run of one class from a place on.
pub(crate) fn run_end(text: &[u8], from: usize, run: ByteClass) -> usize
    requires { from ≤ length text.now }
    ensures low { from ≤ result }
    ensures within { result ≤ length text.now }
    ensures all { AllOf run text.now from result }
    ensures stops { result < length text.now → class (slice_index text.now result) ≢ run }
{
    let mut end = from;
    while end < text.len() && ByteClass::of(text[end]) == run {
        end += 1;
    }
    end
}
