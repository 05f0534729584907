// What a list answers and how it changes.
ghost use Rattle.std.specs.Prelude.{◌≡◌, ◌≤◌, [], ◌∷◌, ◌++◌, length, take, OnOk, OnErr, IfOk, slice_get, slice_set};
ghost use Rattle.bounded.specs.Items.{items};

use super::{BoundedVec, Full};

impl<T: Copy, const N: usize> BoundedVec<T, N> {
    // No items; the places hold the spare value until they are used.
    pub fn new(spare: T) -> Self
        ensures { items result ≡ [] }
    {
        BoundedVec {
            cells: [spare; N],
            len: 0,
        }
    }

    pub fn len(&self) -> usize
        ensures is { result ≡ length (items self.now) }
        ensures few { result ≤ N }
    {
        self.as_slice().len()
    }

    // The items in order.
    pub fn as_slice(&self) -> &[T]
        ensures { result.now ≡ items self.now }
    {
        &self.cells[..self.len]
    }

    // The item at a place, if there is one.
    pub fn get(&self, at: usize) -> Option<T>
        ensures { result ≡ slice_get (items self.now) at }
    {
        self.as_slice().get(at).copied()
    }

    // Puts an item behind the others, and answers its place.
    pub fn push(&mut self, item: T) -> Result<usize, Full>
        ensures ok { OnOk result (items self.new ≡ items self.old ++ item ∷ []) }
        ensures place { IfOk result (λ at. at ≡ length (items self.old)) }
        ensures full { OnErr result (length (items self.old) ≡ N) }
        ensures same { OnErr result (self.new ≡ self.old) }
    {
        let at = self.len;
        if at >= N {
            return Err(Full);
        }
        self.cells[at] = item;
        self.len = at + 1;
        Ok(at)
    }

    // Puts an item in place of another, and answers the other; past the end there is none, and nothing is altered.
    #[tactic(auto, using(crate::proofs::Lists::take_slice_set))]
    pub fn replace(&mut self, at: usize, item: T) -> Option<T>
        ensures was { result ≡ slice_get (items self.old) at }
        ensures now { items self.new ≡ slice_set (items self.old) at item }
    {
        if at >= self.len {
            return None;
        }
        let was = self.cells[at];
        self.cells[at] = item;
        Some(was)
    }

    // Keeps the first items, as many as are asked for.
    pub fn truncate(&mut self, len: usize)
        ensures { items self.new ≡ take len (items self.old) }
    {
        if len < self.len {
            self.len = len;
        }
    }
}
