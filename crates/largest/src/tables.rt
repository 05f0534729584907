// The tables, made by calls of a blank protocol.
use protocol::{Protocol, Refusal};
use terms::{Form, Kind, TermId};

// The form by which a mate is built.
const MATE: usize = 4;

// Two parties, U and S, of which U starts with S's name. Their agents are 1 and 2.
fn two_parties(protocol: &mut Protocol) -> Result<(), Refusal> {
    protocol.name(Kind::Party as usize)?;
    let s = protocol.name(Kind::Party as usize)?;
    protocol.add_knowledge(1, s)
}

fn pair(protocol: &mut Protocol, left: TermId, right: TermId) -> Result<TermId, Refusal> {
    protocol.build(Form::Pair as usize, left, right)
}

// A number in 500 pairs, each of the one before with itself.
fn nested_pairs(protocol: &mut Protocol) -> Result<TermId, Refusal> {
    let mut last = protocol.name(Kind::Number as usize)?;
    for _ in 0..500 {
        last = pair(protocol, last, last)?;
    }
    Ok(last)
}

// U takes 500 pairs apart before its first step.
pub(crate) fn nested_knowledge(protocol: &mut Protocol) -> Result<(), Refusal> {
    two_parties(protocol)?;
    let nested = nested_pairs(protocol)?;
    protocol.add_knowledge(1, nested)
}

// S would have to take 500 pairs apart and compare the halves, which is more than a script has room for.
pub(crate) fn nested_message(protocol: &mut Protocol) -> Result<(), Refusal> {
    two_parties(protocol)?;
    let nested = nested_pairs(protocol)?;
    protocol.add_step(1, 2, nested)?;
    Ok(())
}

// A number sealed under a public key, and the key's mate.
fn sealed_number(protocol: &mut Protocol) -> Result<(TermId, TermId), Refusal> {
    let number = protocol.name(Kind::Number as usize)?;
    let key = protocol.name(Kind::Public as usize)?;
    let sealed = protocol.build(Form::Sealed as usize, number, key)?;
    Ok((sealed, protocol.build(MATE, key, 0)?))
}

// U sends 80 sealed numbers, which nobody can open, and then what opens them: all is opened at once.
pub(crate) fn late_keys(protocol: &mut Protocol) -> Result<(), Refusal> {
    two_parties(protocol)?;
    let (mut seals, mut mates) = sealed_number(protocol)?;
    for _ in 1..80 {
        let (sealed, mate) = sealed_number(protocol)?;
        seals = pair(protocol, sealed, seals)?;
        mates = pair(protocol, mate, mates)?;
    }
    protocol.add_step(1, 2, seals)?;
    protocol.add_step(1, 2, mates)?;
    Ok(())
}

// Seven parties that know each other; 64 steps, each with a new number sealed under a new shared key; then numbers until the table is full.
pub(crate) fn full_table(protocol: &mut Protocol) -> Result<(), Refusal> {
    for _ in 0..7 {
        protocol.name(Kind::Party as usize)?;
    }
    for party in 1..8 {
        for name in 0..7 {
            protocol.add_knowledge(party, name)?;
        }
    }
    for step in 0..64 {
        let number = protocol.name(Kind::Number as usize)?;
        let key = protocol.name(Kind::Shared as usize)?;
        let sealed = protocol.build(Form::Sealed as usize, number, key)?;
        let message = pair(protocol, sealed, key)?;
        protocol.add_step(1 + step % 7, 1 + (step + 1) % 7, message)?;
    }
    for _ in protocol.terms().len()..512 {
        protocol.name(Kind::Number as usize)?;
    }
    Ok(())
}
