// Where and why something is stopped.
use provider::ProviderError;

// The number of the term or instruction at which it was stopped, and by what: Wrong also where two values are not the same.
#[derive(Clone, Copy, PartialEq, Eq, Debug)]
pub struct Halt {
    pub at: usize,
    pub error: ProviderError,
}
