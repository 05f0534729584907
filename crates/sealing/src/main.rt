// Seals 5,000 bytes on the byte provider, a thousand times over, so that it can be timed: in each round as often as there are bytes on
// standard input, each time what was sealed before, on a provider with nothing in it. It prints what the last round came to.

#![tactic(auto)]

mod content;

use byte_provider::{ByteProvider, ReadError};
use content::content;
use provider::{Handle, Provider, ProviderError};
use std::io;
use std::io::Read;
use terms::Kind;

const ROUNDS: usize = 1000;

// A provider has room for four sealed contents beside the content.
const MOST: u64 = 4;

// Seals a content, and what comes of that, as often as is asked.
fn sealed(
    provider: &mut ByteProvider,
    content: Handle,
    times: usize,
) -> Result<Handle, ProviderError> {
    let key = provider.atom(usize::from(Kind::Shared), 263)?;
    let mut last = content;
    for _ in 0..times {
        last = provider.seal(last, key)?;
    }
    Ok(last)
}

// One round, on a blank provider: the bytes that were sealed last go into the output.
fn play(times: usize, out: &mut [u8]) -> Result<usize, ProviderError> {
    let mut provider = ByteProvider::blank();
    let content = content(&mut provider)?;
    let last = sealed(&mut provider, content, times)?;
    match provider.read(last, out) {
        Ok(len) => Ok(len),
        Err(ReadError::Unissued | ReadError::Short) => Ok(0),
    }
}

// How long the value is that was sealed last, and the sum of its bytes modulo 256.
fn play_all(times: usize) -> Result<(usize, u8), ProviderError> {
    let mut out = [0; 5000];
    let mut len = 0;
    for _ in 0..ROUNDS {
        len = play(times, &mut out)?;
    }
    let sum = out.iter().fold(0, |sum: u8, byte| sum.wrapping_add(*byte));
    Ok((len, sum))
}

fn main(rt: HostRuntime) -> io::Result<()> {
    let mut input = Vec::new(rt.alloc());
    rt.stdin().take(MOST).read_to_end(&mut input)?;
    match play_all(input.len()) {
        Ok((len, sum)) => println!(rt; "{len} bytes, sum {sum}"),
        Err(error) => println!(rt; "stopped: {error}"),
    }
}
