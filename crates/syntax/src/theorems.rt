// What holds of the grammar and of every text. Nothing here computes: each function carries one theorem in its contract.
ghost use Rattle.std.specs.Prelude.{◌≡◌};
ghost use Rattle.syntax.specs.Grammar.{Line, line_tokens};
ghost use Rattle.syntax.specs.Check.{ChecksDetermined};

// A list of tokens is written by one line of the grammar at most.
pub fn lines_are_unambiguous()
    ensures { (l m : Line) → line_tokens l ≡ line_tokens m → l ≡ m }
{}

// A text has one answer for the line at each place.
pub fn checks_are_determined()
    ensures { ChecksDetermined }
{}
