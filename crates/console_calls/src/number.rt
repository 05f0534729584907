// Numbers in decimal.
ghost use Rattle.std.specs.Prelude.{◌≡◌};
ghost use Rattle.console_calls.specs.Words.{digits_of, number_of};

// The number that a word's digits write, if they are all digits and it is at most 65535.
fn digits(word: &[u8]) -> Option<usize>
    ensures { result ≡ digits_of word.now }
{
    let mut n = 0;
    for b in word {
        if !b.is_ascii_digit() {
            return None;
        }
        n = n * 10 + usize::from(*b - b'0');
        // more digits would not make it less
        if n > 65535 {
            return None;
        }
    }
    Some(n)
}

// The number that a word of one to five digits writes.
pub fn number(word: &[u8]) -> Option<usize>
    ensures { result ≡ number_of word.now }
{
    if word.is_empty() || word.len() > 5 {
        None
    } else {
        digits(word)
    }
}
