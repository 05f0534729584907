// The calls of the provider.
ghost use Rattle.std.specs.Prelude.{◌≡◌, ℕ, true, List, length, Ok};
ghost use Rattle.provider.specs.Meaning.{Same, stands};
ghost use Rattle.byte_provider.specs.Outcome.{Blank, Done, Outcome};
ghost use Rattle.byte_provider.specs.Planned.{PlanFor};
ghost use Rattle.byte_provider.specs.Plans.{Sound, added};
ghost use Rattle.byte_provider.specs.Reads.{Reads};
ghost use Rattle.byte_provider.specs.State.{bytes_of, fits_of, has_room, issued_of, meaning_of};
ghost use Rattle.byte_provider.specs.Values.{Bytes, byte_algebra};
ghost use Rattle.byte_provider.specs.Laws;
ghost use Rattle.std.proofs.Common.{rules, arith};

use super::{ByteProvider, ReadError};
use crate::plan::Plan;
use crate::span::Span;
use crate::table::Table;
use bounded::BoundedVec;
use provider::{Handle, Making, Provider, ProviderError};

impl ByteProvider {
    // A provider with nothing in it.
    pub fn blank() -> Self
        ensures { Blank result }
    {
        ByteProvider {
            table: Table::blank(),
            spans: BoundedVec::new(Span::NONE),
        }
    }

    // How many bytes a plan adds.
    #[tactic(auto, using(crate::proofs::Loops::length_shifted, crate::specs::Parts::length_part))]
    fn size(&self, plan: Plan) -> usize
        requires { Sound (bytes_of self.now) plan }
        ensures { result ≡ length (added (bytes_of self.now) plan) }
    {
        match plan {
            Plan::Copied(head, first, second) => head.len() + first.len + second.len,
            Plan::Shifted(_, content, _) => content.len,
            Plan::Part(_) => 0,
        }
    }

    // Whether a handle and the bytes that a plan adds are free.
    fn has_room(&self, plan: Plan) -> bool
        requires { Sound (bytes_of self.now) plan }
        ensures { result ≡ has_room self.now plan }
    {
        self.spans.len() < 4096 && self.size(plan) <= 32768 - self.table.used()
    }

    // Writes what a plan adds and issues the next handle for its value.
    fn store(&mut self, plan: Plan) -> Handle
        requires sound { Sound (bytes_of self.old) plan }
        requires room { has_room self.old plan ≡ true }
        ensures { (m : Making) → PlanFor self.old m plan → Done self.old m (Ok result) self.new }
    {
        let span = self.table.write(plan);
        self.spans.push(span).unwrap()
    }

    // Whether two handles stand for one value.
    fn equals(&self, a: Handle, b: Handle) -> bool
        ensures { Same (issued_of self.now) a b result }
    {
        let (Some(one), Some(other)) = (self.value(a), self.value(b)) else {
            return false;
        };
        one == other
    }

    // Copies the bytes of a handle to the front of a lent slice, and answers how many they are.
    pub fn read(&self, handle: Handle, out: &mut [u8]) -> Result<usize, ReadError>
        ensures { Reads (stands (issued_of self.now) handle) out.old result out.new }
    {
        let value = self.value(handle).ok_or(ReadError::Unissued)?;
        if value.len() > out.len() {
            return Err(ReadError::Short);
        }
        out[..value.len()].copy_from_slice(value);
        Ok(value.len())
    }
}

impl Provider for ByteProvider {
    ghost value = { List ℕ };

    ghost proper = { Bytes };

    ghost algebra = { byte_algebra };

    ghost meaning = { meaning_of };

    ghost outcome = { Outcome };

    ghost holds = { Laws.holds };

    ghost unfit = { first_of (Prim.search rules, Prim.grind (arith, Self.row.coded.inj)) };

    ghost halves = { Laws.halves };

    ghost mates = { Laws.mates };

    ghost seals = { Laws.seals };

    ghost builds = { first_of (Prim.search rules, Prim.grind (arith, Self.row.coded.inj)) };

    // Wrong first, then Full, else the value is stored.
    fn make(&mut self, making: Making) -> Result<Handle, ProviderError> {
        match self.plan(making) {
            Some(plan) if self.has_room(plan) => Ok(self.store(plan)),
            Some(_) => Err(ProviderError::Full),
            None => Err(ProviderError::Wrong),
        }
    }

    fn same(&self, a: Handle, b: Handle) -> bool
        ensures { Same (issued_of self.now) a b result }
    {
        self.equals(a, b)
    }

    fn fits(&self, making: Making) -> bool
        ensures { result ≡ fits_of self.now making }
    {
        self.plan(making).is_some_and(|plan| self.has_room(plan))
    }
}
