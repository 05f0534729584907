// Adding bytes behind those in use.
ghost use Rattle.std.specs.Prelude.{◌≡◌, ◌+◌, ◌-◌, ◌%◌, ◌<◌, ◌≤◌, [], ◌++◌, length};
ghost use Rattle.byte_provider.specs.Held.{held, part, Inside};
ghost use Rattle.byte_provider.specs.Plans.{head_bytes, Sound, added};
ghost use Rattle.byte_provider.specs.Values.{shifted};
ghost use Rattle.byte_provider.specs.Writing.{Added, HasSpace, Written};

use super::Table;
use crate::plan::{Head, Plan, Shift};
use crate::span::Span;

// The place after `at` in a body of n bytes, which begins anew where it ends. A remainder for each byte takes four times as long.
fn after(at: usize, n: usize) -> usize
    requires { at < n }
    ensures { (result ≡ (at + 1) % n) × (result < n) }
{
    if at + 1 < n { at + 1 } else { 0 }
}

impl Table {
    pub(crate) fn blank() -> Self
        ensures { (held result ≡ []) × (result.used ≡ 0) }
    {
        Table {
            bytes: [0; 32768],
            used: 0,
        }
    }

    // More bytes.
    fn extend(&mut self, more: &[u8])
        requires { HasSpace self.old (length more.now) }
        ensures { Added self.old more.now self.new }
    {
        let end = self.used + more.len();
        self.bytes[self.used..end].copy_from_slice(more);
        self.used = end;
    }

    fn extend_head(&mut self, head: Head)
        requires { HasSpace self.old (length (head_bytes head)) }
        ensures { Added self.old (head_bytes head) self.new }
    {
        match head {
            Head::One(a) => self.extend(&[a]),
            Head::Two(a, b) => self.extend(&[a, b]),
            Head::Three(a, b, c) => self.extend(&[a, b, c]),
        }
    }

    // A span's bytes once more.
    fn copy(&mut self, span: Span)
        requires inside { Inside (held self.old) span }
        requires space { HasSpace self.old span.len }
        ensures { Added self.old (part (held self.old) span) self.new }
    {
        self.bytes
            .copy_within(span.start..span.start + span.len, self.used);
        self.used += span.len;
    }

    // A content's bytes once more, each shifted by the body's.
    fn shift(&mut self, way: Shift, content: Span, body: Span)
        requires content_inside { Inside (held self.old) content }
        requires body_inside { Inside (held self.old) body }
        requires some_body { 0 < body.len }
        requires space { HasSpace self.old content.len }
        ensures { Added self.old (shifted way (part (held self.old) body) 0 (part (held self.old) content)) self.new }
    {
        let at = self.used;
        let mut k = 0;
        for i in 0..content.len {
            self.bytes[at + i] = way.apply(
                self.bytes[content.start + i],
                self.bytes[body.start + k],
            );
            k = after(k, body.len);
        }
        self.used = at + content.len;
    }

    // A head and two spans' bytes.
    fn copied(&mut self, head: Head, first: Span, second: Span)
        requires first_inside { Inside (held self.old) first }
        requires second_inside { Inside (held self.old) second }
        requires space { HasSpace self.old (length (head_bytes head) + first.len + second.len) }
        ensures { Added self.old (head_bytes head ++ (part (held self.old) first ++ part (held self.old) second)) self.new }
    {
        self.extend_head(head);
        self.copy(first);
        self.copy(second);
    }

    // The bytes in use from a place on.
    fn since(&self, start: usize) -> Span
        requires { start ≤ self.now.used }
        ensures { result ≡ record { start = start; len = self.now.used - start } }
    {
        Span {
            start,
            len: self.used - start,
        }
    }

    // Writes what a plan adds, and answers where its value lies.
    #[tactic(auto, using(crate::proofs::Loops::length_shifted, crate::specs::Parts::length_part))]
    pub(crate) fn write(&mut self, plan: Plan) -> Span
        requires sound { Sound (held self.old) plan }
        requires space { HasSpace self.old (length (added (held self.old) plan)) }
        ensures { Written self.old plan result self.new }
    {
        let start = self.used;
        match plan {
            Plan::Copied(head, first, second) => {
                self.copied(head, first, second);
                self.since(start)
            }
            Plan::Shifted(way, content, body) => {
                self.shift(way, content, body);
                self.since(start)
            }
            Plan::Part(span) => span,
        }
    }
}
