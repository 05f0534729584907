// Marks of terms: a set of numbers below N, in fixed memory.
ghost use Rattle.std.specs.Prelude.{◌≡◌, ℕ, ◌<◌, ◌≤◌, ◌||◌, Bool, false, length, slice_index_or, nat_eq, List};

use crate::node::TermId;
use std::marker::Model;

// What a contract calls its value is one flag for each number.
#[derive(Clone, Copy, PartialEq, Eq, PartialOrd, Ord, Hash, Debug, Default)]
pub struct Marks<const N: usize> {
    cells: [bool; N],
}

impl<const N: usize> Model for Marks<N> {
    ghost Value = { List Bool };

    ghost view = { λ m. m.cells };

    ghost inverse = { λ v. record { cells = v } };

    ghost invariant = { λ m. length m.cells ≡ N };
}

impl<const N: usize> Marks<N> {
    // No number is marked.
    pub fn none() -> Marks<N>
        ensures marks { (t : ℕ) → slice_index_or result t false ≡ false }
        ensures size { length result ≡ N }
    {
        Marks { cells: [false; N] }
    }

    // Whether a number is marked; from N on none is.
    pub fn contains(&self, term: TermId) -> bool
        ensures is { result ≡ slice_index_or self.now term false }
        ensures past { N ≤ term → result ≡ false }
        ensures room { length self.now ≡ N }
    {
        self.cells.get(term).copied().unwrap_or(false)
    }

    // Marks a number below N, and no other.
    pub fn insert(&mut self, term: TermId)
        ensures marks { (t : ℕ) → t < N → slice_index_or self.new t false ≡ (slice_index_or self.old t false || nat_eq term t) }
        ensures size { length self.new ≡ length self.old }
        ensures room { length self.new ≡ N }
    {
        if term < N {
            self.cells[term] = true;
        }
    }
}

impl<const N: usize> From<[bool; N]> for Marks<N> {
    ghost from_gives = { λ flags marks. marks ≡ flags };

    // The numbers whose flags are set.
    fn from(flags: [bool; N]) -> Marks<N> {
        Marks { cells: flags }
    }
}

impl<const N: usize> From<Marks<N>> for [bool; N] {
    ghost from_gives = { λ marks flags. flags ≡ marks };

    // A flag for each number.
    fn from(marks: Marks<N>) -> [bool; N] {
        marks.cells
    }
}
