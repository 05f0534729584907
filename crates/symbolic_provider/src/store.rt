// The provider's state: the terms that it holds, by handle.
use terms::Terms;

mod calls;
mod makings;

#[derive(Clone, Copy)]
pub struct SymbolicProvider {
    terms: Terms<1024>,
}
