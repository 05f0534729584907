// What a call is to carry out.
use acting::Part;

// The instructions of a script from start up to end, the part of a step in which they are carried out, and the number below which
// the party's steps are done after that.
#[derive(Clone, Copy)]
pub(crate) struct Work {
    pub(crate) start: usize,
    pub(crate) end: usize,
    pub(crate) part: Part,
    pub(crate) next: usize,
}
