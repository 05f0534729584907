// Compares what the table of terms judges in one pass with a plain recursion into the parts, on thousands of random small
// tables with random held terms: which terms are composable, and which term is missing first.

#![tactic(auto)]

mod naive;
mod random;

use naive::Recursion;
use random::Random;
use std::io;
use terms::{Form, Kind, Marks, TermError, TermId, Terms};

const PLACES: usize = 24;

// One more call that may add a term; a refusal is as good.
fn add(terms: &mut Terms<PLACES>, random: &mut Random) {
    let a = random.below(PLACES);
    let b = random.below(PLACES);
    let _ = match random.below(4) {
        0 => terms.name(Kind::try_from(random.below(6)).unwrap(), random.below(3)),
        1 => terms.mate(a),
        _ => terms.build(Form::try_from(random.below(4)).unwrap(), a, b),
    };
}

fn random_table(random: &mut Random) -> Terms<PLACES> {
    let mut terms = Terms::blank();
    for _ in 0..60 {
        add(&mut terms, random);
    }
    terms
}

fn random_held(random: &mut Random) -> Marks<PLACES> {
    let one_in = 2 + random.below(4);
    let mut held = Marks::none();
    for term in 0..PLACES {
        if random.below(one_in) == 0 {
            held.insert(term);
        }
    }
    held
}

// How many terms of one random table the two agree on, or None where they differ.
fn agree(random: &mut Random) -> Option<usize> {
    let terms = random_table(random);
    let held = random_held(random);
    let recursion = Recursion {
        terms: &terms,
        held: &held,
    };
    let composable = terms.composable(&held);
    let same = (0..PLACES).all(|id| {
        composable.contains(id) == recursion.composes(id, PLACES)
            && terms.first_missing(&held, id) == recursion.misses(id, PLACES)
    });
    same.then_some(terms.len())
}

// What is missing in 500 nested pairs, each of the one before with itself: a recursion would visit the innermost name 2^500 times.
fn missing_in_nested_pairs(held: bool) -> Result<Option<TermId>, TermError> {
    let mut terms: Terms<512> = Terms::blank();
    let mut last = terms.name(Kind::Number, 0)?;
    let mut marks = Marks::none();
    if held {
        marks.insert(last);
    }
    for _ in 0..500 {
        last = terms.build(Form::Pair, last, last)?;
    }
    Ok(terms.first_missing(&marks, last))
}

fn print_nested(rt: &HostRuntime, held: bool) -> io::Result<()> {
    let which = if held { "held" } else { "not held" };
    match missing_in_nested_pairs(held) {
        Ok(Some(term)) => println!(rt;
            "500 nested pairs, the innermost name {which}: term {term} is missing"
        ),
        Ok(None) => println!(rt; "500 nested pairs, the innermost name {which}: composable"),
        Err(_) => println!(rt; "500 nested pairs are refused"),
    }
}

fn main(rt: HostRuntime) -> io::Result<()> {
    print_nested(&rt, true)?;
    print_nested(&rt, false)?;
    let mut random = Random::new(20261117);
    let mut judged: usize = 0;
    for table in 0..3000 {
        let Some(n) = agree(&mut random) else {
            return println!(rt; "table {table}: the one pass and the recursion differ");
        };
        judged = judged.saturating_add(n);
    }
    println!(rt; "3000 tables: the one pass and the recursion agree on {judged} terms")
}
