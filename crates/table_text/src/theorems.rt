// What holds of every text. Nothing here computes: each function carries one theorem in its contract.
ghost use Rattle.table_text.specs.Standing.{DeclaredNamesStand};
ghost use Rattle.table_text.specs.Tables.{ReadsDetermined};
ghost use Rattle.table_text.specs.Written.{MadeTermsStand};

// A text has one answer, one list of declared names and one state.
pub fn reads_are_determined()
    ensures { ReadsDetermined }
{}

// A declared name stands for the term of that name, and a party's also for the agent of that name.
pub fn declared_names_stand()
    ensures { DeclaredNamesStand }
{}

// The number that is made for a line's term stands for the term that the line writes.
pub fn made_terms_are_those_written()
    ensures { MadeTermsStand }
{}
