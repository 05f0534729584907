// A value of 5,000 bytes.
use byte_provider::ByteProvider;
use provider::{Handle, Provider, ProviderError};
use terms::Kind;

// A value joined with itself, and that again: of n bytes come 2 n + 2 each time.
fn doubled(
    provider: &mut ByteProvider,
    value: Handle,
    times: usize,
) -> Result<Handle, ProviderError> {
    let mut last = value;
    for _ in 0..times {
        last = provider.join(last, last)?;
    }
    Ok(last)
}

// A digest of 1 byte grows to 10, 15, 32, 37, 2,494, 2,499 and 5,000 bytes; with an atom of 3 bytes come 5 more.
pub(crate) fn content(provider: &mut ByteProvider) -> Result<Handle, ProviderError> {
    let number = provider.atom(usize::from(Kind::Number), 1)?;
    let function = provider.atom(usize::from(Kind::Function), 2)?;
    let digest = provider.digest(function, number)?;
    let mut value = doubled(provider, digest, 2)?;
    for doublings in [1, 6, 1] {
        let more = provider.join(value, number)?;
        value = doubled(provider, more, doublings)?;
    }
    Ok(value)
}
