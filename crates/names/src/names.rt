// The list of declared names.
ghost use Rattle.std.specs.Prelude.{◌≡◌, [], ◌∷◌, ◌++◌, length, OnOk, OnErr};
ghost use Rattle.std.specs.Str.{bytes_eq};
ghost use Rattle.names.specs.Names.{WordOf, agent_from, is_party, known, look_up};

use bounded::{BoundedVec, Full};
use terms::{Kind, TermId};

// What a name was declared as.
#[derive(Clone, Copy, PartialEq, Eq, Debug)]
pub struct Named {
    pub kind: Kind,
    pub term: TermId,
}

#[derive(Clone, Copy)]
struct Declared<'a> {
    word: &'a [u8],
    named: Named,
}

#[derive(Clone, Copy)]
pub struct Names<'a> {
    list: BoundedVec<Declared<'a>, 512>,
}

// Most words are told apart by their last letters.
fn is(word: &[u8], other: &[u8]) -> bool
    ensures { result ≡ bytes_eq word.now other.now }
{
    word.last() == other.last() && word == other
}

fn is_party(kind: Kind) -> bool
    ensures { result ≡ is_party kind }
{
    matches!(kind, Kind::Party)
}

impl<'a> Names<'a> {
    // No names.
    pub fn new() -> Names<'a>
        ensures { known result ≡ [] }
    {
        let spare = Declared {
            word: b"",
            named: Named {
                kind: Kind::Party,
                term: 0,
            },
        };
        let list = BoundedVec::new(spare);
        Names { list }
    }

    // What a word was declared as first, if it was.
    pub fn get(&self, word: &[u8]) -> Option<Named>
        ensures { result ≡ look_up (known self.now) word.now }
    {
        for declared in self.list.as_slice() {
            if is(declared.word, word) {
                return Some(declared.named);
            }
        }
        None
    }

    // The agent of a party's name: the parties are the agents 1, 2, and so on, in the order in which they were declared.
    pub fn agent(&self, word: &[u8]) -> Option<usize>
        ensures { result ≡ agent_from 1 (known self.now) word.now }
    {
        let mut agent = 1;
        for declared in self.list.as_slice() {
            if is_party(declared.named.kind) {
                if is(declared.word, word) {
                    return Some(agent);
                }
                agent += 1;
            }
        }
        None
    }

    // The word that was declared first for a term, if one was.
    pub fn word(&self, term: TermId) -> Option<&'a [u8]>
        ensures { WordOf (known self.now) term result }
    {
        for declared in self.list.as_slice() {
            if declared.named.term == term {
                return Some(declared.word);
            }
        }
        None
    }

    // Declares a word, behind the others.
    pub fn declare(&mut self, word: &'a [u8], named: Named) -> Result<(), Full>
        ensures ok { OnOk result (known self.new ≡ known self.old ++ (word.now, named) ∷ []) }
        ensures full { OnErr result (length (known self.old) ≡ 512) }
        ensures same { OnErr result (self.new ≡ self.old) }
    {
        self.list.push(Declared { word, named })?;
        Ok(())
    }
}
