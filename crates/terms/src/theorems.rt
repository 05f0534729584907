// What holds of every table. Nothing here computes: each function carries one theorem in its contract.
ghost use Rattle.std.specs.Prelude.{◌≡◌, ℕ, ◌<◌, length};
ghost use Rattle.terms.specs.Tree.{tree};
ghost use Rattle.terms.specs.Listed.{listed};

use crate::table::Terms;

// Different numbers stand for different terms.
pub fn numbers_are_apart<const N: usize>(terms: &Terms<N>)
    ensures { (i j : ℕ) → i < length (listed terms.now) → j < length (listed terms.now) → tree (listed terms.now) i ≡ tree (listed terms.now) j → i ≡ j }
{}
