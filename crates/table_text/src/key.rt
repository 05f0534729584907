// The calls that build a key.
ghost use Rattle.std.specs.Prelude.{◌≡◌, ◌≤◌, ℕ, List};
ghost use Rattle.scan.specs.Tokens.{pos_of, text_of};
ghost use Rattle.syntax.specs.Grammar.{Key, Tok};
ghost use Rattle.names.specs.Names.{known};
ghost use Rattle.protocol.specs.View.{view_of};
ghost use Rattle.table_text.specs.Ahead.{Ahead, Apart, Read, key_name, key_rest};
ghost use Rattle.table_text.specs.Calls.{KeyMade, number_in};
ghost use Rattle.table_text.specs.Keys.{IsTickless, Mated, NoSquare, ticks};

use crate::calls::{mate, table_entry};
use crate::token::{name, next, passes};
use names::Names;
use protocol::{Protocol, Refusal};
use scan::{Scanner, Shape};
use syntax::Sign;
use terms::TermId;

// The entry of a party in the table, if an entry is what the name begins.
fn entry(
    scanner: &mut Scanner<'_>,
    names: &Names<'_>,
    protocol: &mut Protocol,
    table: TermId,
) -> Result<TermId, Refusal>
    ensures text { text_of scanner.new ≡ text_of scanner.old }
    ensures low { pos_of scanner.old ≤ pos_of scanner.new }
    ensures made { (k : Key) (ts : List Tok) → IsTickless k → NoSquare ts
        → Ahead (text_of scanner.old) (pos_of scanner.old) (key_rest k ts) → table ≡ number_in (known names.now) (key_name k)
        → Read (KeyMade (known names.now) k) (text_of scanner.old) ts (view_of protocol.old) result (pos_of scanner.new) (view_of protocol.new) }
{
    if !passes(scanner, Sign::Opens(Shape::Square)) {
        return Ok(table);
    }
    let party = name(scanner, names);
    let _close = next(scanner);
    table_entry(protocol, table, party)
}

// A mate for each tick.
fn mates(
    scanner: &mut Scanner<'_>,
    protocol: &mut Protocol,
    first: TermId,
) -> Result<TermId, Refusal>
    ensures text { text_of scanner.new ≡ text_of scanner.old }
    ensures low { pos_of scanner.old ≤ pos_of scanner.new }
    ensures made { (n : ℕ) (ts : List Tok) → Apart ts → Ahead (text_of scanner.old) (pos_of scanner.old) (ticks n ts)
        → Read (Mated n first) (text_of scanner.old) ts (view_of protocol.old) result (pos_of scanner.new) (view_of protocol.new) }
{
    let mut key = first;
    while passes(scanner, Sign::Tick) {
        key = mate(protocol, key)?;
    }
    Ok(key)
}

// A key whose name was read.
pub(crate) fn key(
    scanner: &mut Scanner<'_>,
    names: &Names<'_>,
    protocol: &mut Protocol,
    name: TermId,
) -> Result<TermId, Refusal>
    ensures text { text_of scanner.new ≡ text_of scanner.old }
    ensures low { pos_of scanner.old ≤ pos_of scanner.new }
    ensures made { (k : Key) (ts : List Tok) → Apart ts → Ahead (text_of scanner.old) (pos_of scanner.old) (key_rest k ts)
        → name ≡ number_in (known names.now) (key_name k)
        → Read (KeyMade (known names.now) k) (text_of scanner.old) ts (view_of protocol.old) result (pos_of scanner.new) (view_of protocol.new) }
{
    let base = entry(scanner, names, protocol, name)?;
    mates(scanner, protocol, base)
}
