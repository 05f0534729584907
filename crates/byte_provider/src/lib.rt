// A provider whose values are strings of bytes, in fixed memory: a table of 32,768 bytes and 4,096 handles.
//
// Every call takes any numbers and answers a handle, Wrong or Full. Its contract says the whole outcome: which handle, what it
// stands for, which bytes are in use afterwards; a refusal leaves the provider equal to what it was. The calls are shown to
// keep the laws of a provider, and the bytes are those that docs/PROVIDERS.md describes.

#![tactic(auto)]

ghost use Rattle.byte_provider.specs.Example.{SealedExample};

mod plan;
mod span;
mod store;
mod table;
mod value;

pub use store::{ByteProvider, ReadError};

// Bytes 250 255 sealed under 2 0 7 are 250 6, and these open under it to 250 255.
pub fn sealed_example()
    ensures { SealedExample }
{}
