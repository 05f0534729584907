// What holds of every text. Nothing here computes: the function carries the theorem in its contract.
ghost use Rattle.scan.specs.Determined.{TokensDetermined};

// One token comes next, at one place, and reading goes on at one place.
pub fn tokens_are_determined()
    ensures { TokensDetermined }
{}
