// The plain recursion: into the parts, again and again. It would take for ever on large tables with shared parts.
use crate::PLACES;
use terms::{Marks, TermId, TermNode, Terms};

// A table with the terms that are held of it.
#[derive(Clone, Copy)]
pub(crate) struct Recursion<'a> {
    pub(crate) terms: &'a Terms<PLACES>,
    pub(crate) held: &'a Marks<PLACES>,
}

impl Recursion<'_> {
    // Whether a term is held, or both its parts are composable.
    pub(crate) fn composes(&self, id: TermId, depth: usize) -> bool {
        if depth == 0 {
            return false;
        }
        match self.terms.get(id) {
            None => false,
            Some(_) if self.held.contains(id) => true,
            Some(TermNode::Built(_, a, b)) => self.composes(a, depth - 1)
                && self.composes(b, depth - 1),
            Some(TermNode::Name(_, _) | TermNode::Mate(_)) => false,
        }
    }

    // The first name or mate, from left to right, for want of which a term is not composable.
    pub(crate) fn misses(&self, id: TermId, depth: usize) -> Option<TermId> {
        if depth == 0 {
            return None;
        }
        match self.terms.get(id)? {
            _ if self.held.contains(id) => None,
            // a match, since a recursion through a closure wants a measure of its own
            TermNode::Built(_, a, b) => match self.misses(a, depth - 1) {
                None => self.misses(b, depth - 1),
                lacking => lacking,
            },
            TermNode::Name(_, _) | TermNode::Mate(_) => Some(id),
        }
    }
}
