// What holds of every text. Nothing here computes: the function carries the theorem in its contract.
ghost use Rattle.line_check.specs.Check.{ChecksDetermined};

// With the same names declared before, a text has one answer for the line at each place.
pub fn checks_are_determined()
    ensures { ChecksDetermined }
{}
