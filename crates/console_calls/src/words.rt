// The words of a line: what stands between its single spaces.
ghost use Rattle.std.specs.Prelude.{◌≡◌, ◌∷◌};
ghost use Rattle.console_calls.specs.Words.{first_space, split, split_after};

// Where the first space of a text stands, if there is one.
fn first_space(text: &[u8]) -> Option<usize>
    ensures { result ≡ first_space text.now }
{
    text.iter().position(|byte| *byte == b' ')
}

// The first word, and what follows the space after it, if there is one. Two spaces in a row part an empty word.
#[tactic(auto, using(crate::proofs::Splitting::cut_some, crate::proofs::Splitting::cut_none))]
pub fn cut(text: &[u8]) -> (&[u8], Option<&[u8]>)
    ensures { split text.now ≡ result.0.now ∷ split_after result.1 }
{
    match first_space(text) {
        Some(end) => (&text[..end], Some(&text[end + 1..])),
        None => (text, None),
    }
}
