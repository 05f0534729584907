// What the bytes of a value say.
ghost use Rattle.std.specs.Prelude.{◌≡◌, ◌%◌, sum};
ghost use Rattle.byte_provider.specs.Values.{key_type, left_size, type_of};

use crate::plan::KeyType;

// How long the left part of a pair is; None where the bytes are too few for one.
pub(crate) fn left_len(pair: &[u8]) -> Option<usize>
    ensures { result ≡ left_size pair.now }
{
    match pair {
        [high, low, rest @ ..] => {
            let len = usize::from(*high) * 256 + usize::from(*low);
            (len <= rest.len()).then_some(len)
        }
        _ => None,
    }
}

// What a key's first byte says of it.
fn type_of(first: u8) -> Option<KeyType>
    ensures { result ≡ type_of first }
{
    match first {
        2 => Some(KeyType::Shared),
        3 => Some(KeyType::Public),
        6 => Some(KeyType::Private),
        _ => None,
    }
}

// The type of a key; None where the bytes are no key.
pub(crate) fn key_type(key: &[u8]) -> Option<KeyType>
    ensures { result ≡ key_type key.now }
{
    match key {
        [first, _, ..] => type_of(*first),
        _ => None,
    }
}

// The sum of a value's bytes modulo 256.
pub(crate) fn sum(value: &[u8]) -> u8
    ensures { result ≡ sum value.now % 256 }
{
    value
        .iter()
        .fold(0, |sum: u8, byte| sum.wrapping_add(*byte))
}
