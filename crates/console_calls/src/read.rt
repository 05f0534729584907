// The call that a line writes.
ghost use Rattle.std.specs.Prelude.{◌≡◌};
ghost use Rattle.console_calls.specs.Calls.{making_one, making_two, choice, call_one, call_two, call_three, call_four, with_one, with_two, with_three, call_of};
ghost use Rattle.console_calls.specs.Words.{split};

use crate::call::{Act, Call, Turn};
use crate::number::number;
use crate::words::cut;
use protocol::Call as ProtocolCall;
use provider::Making;

// The making of a word and one number.
fn making_of_one(word: &[u8], a: usize) -> Option<Making>
    ensures { result ≡ making_one word.now a }
{
    match word {
        b"left" => Some(Making::Left(a)),
        b"right" => Some(Making::Right(a)),
        b"mate" => Some(Making::Mate(a)),
        _ => None,
    }
}

// The making of a word and two numbers.
fn making_of_two(word: &[u8], a: usize, b: usize) -> Option<Making>
    ensures { result ≡ making_two word.now a b }
{
    match word {
        b"atom" => Some(Making::Atom(a, b)),
        b"join" => Some(Making::Join(a, b)),
        b"seal" => Some(Making::Seal(a, b)),
        b"open" => Some(Making::Open(a, b)),
        b"digest" => Some(Making::Digest(a, b)),
        b"entry" => Some(Making::Entry(a, b)),
        _ => None,
    }
}

// The choice of the provider that a word names.
fn choice_of(word: &[u8]) -> Option<Call>
    ensures { result ≡ choice word.now }
{
    match word {
        b"bytes" => Some(Call::ChooseBytes),
        b"symbolic" => Some(Call::ChooseSymbolic),
        _ => None,
    }
}

// The call of a word and one number.
fn call_with_one(word: &[u8], a: usize) -> Option<Call>
    ensures { result ≡ with_one word.now a }
{
    match word {
        b"name" => Some(Call::Protocol(ProtocolCall::Name(a))),
        b"list" => Some(Call::List(a)),
        b"show" => Some(Call::Show(a)),
        b"seat" => Some(Call::NewSession(a)),
        b"start" => Some(Call::Act(Act::Session(a, Turn::Start))),
        b"send" => Some(Call::Act(Act::Session(a, Turn::Send))),
        _ => Some(Call::Make(making_of_one(word, a)?)),
    }
}

// The call of a word and two numbers.
fn call_with_two(word: &[u8], a: usize, b: usize) -> Option<Call>
    ensures { result ≡ with_two word.now a b }
{
    match word {
        b"own" => Some(Call::Protocol(ProtocolCall::Know(a, b))),
        b"probe" => Some(Call::Protocol(ProtocolCall::CanBuild(a, b))),
        b"same" => Some(Call::Same(a, b)),
        b"memory" => Some(Call::Memory(a, b)),
        _ => Some(Call::Make(making_of_two(word, a, b)?)),
    }
}

// The call of a word and three numbers.
fn call_with_three(word: &[u8], a: usize, b: usize, c: usize) -> Option<Call>
    ensures { result ≡ with_three word.now a b c }
{
    match word {
        b"build" => Some(Call::Protocol(ProtocolCall::Build(a, b, c))),
        b"line" => Some(Call::Protocol(ProtocolCall::Step(a, b, c))),
        b"take" => Some(Call::Act(Act::Session(a, Turn::Receive(b, c)))),
        _ => None,
    }
}

// The call of one word.
fn call_of_one(word: &[u8]) -> Option<Call>
    ensures { result ≡ call_one word.now }
{
    match word {
        b"blank" => Some(Call::Blank),
        b"deal" => Some(Call::Act(Act::Load)),
        b"play" => Some(Call::Act(Act::Run)),
        _ => None,
    }
}

// The call of two words.
fn call_of_two(word: &[u8], a: &[u8]) -> Option<Call>
    ensures { result ≡ call_two word.now a.now }
{
    match word {
        b"provider" => choice_of(a),
        _ => call_with_one(word, number(a)?),
    }
}

// The call of three words.
fn call_of_three(word: &[u8], a: &[u8], b: &[u8]) -> Option<Call>
    ensures { result ≡ call_three word.now a.now b.now }
{
    match word {
        b"fits" => Some(Call::Fits(making_of_one(a, number(b)?)?)),
        _ => call_with_two(word, number(a)?, number(b)?),
    }
}

// The call of four words.
fn call_of_four(word: &[u8], a: &[u8], b: &[u8], c: &[u8]) -> Option<Call>
    ensures { result ≡ call_four word.now a.now b.now c.now }
{
    match word {
        b"fits" => Some(Call::Fits(making_of_two(a, number(b)?, number(c)?)?)),
        _ => call_with_three(word, number(a)?, number(b)?, number(c)?),
    }
}

// The call that a line writes, which has one word to four.
pub fn read_call(line: &[u8]) -> Option<Call>
    ensures { result ≡ call_of (split line.now) }
{
    let (word, rest) = cut(line);
    let Some(rest) = rest else {
        return call_of_one(word);
    };
    let (first, rest) = cut(rest);
    let Some(rest) = rest else {
        return call_of_two(word, first);
    };
    let (second, rest) = cut(rest);
    let Some(rest) = rest else {
        return call_of_three(word, first, second);
    };
    match cut(rest) {
        (third, None) => call_of_four(word, first, second, third),
        (_, Some(_)) => None,
    }
}
