// A script: its instructions in the order in which they were written.
use crate::instruction::Line;
use bounded::BoundedVec;

mod compose;
mod lines;
mod saturate;
mod walk;
mod writing;

#[derive(Clone, Copy)]
pub struct Script {
    lines: BoundedVec<Line, 512>,
}
