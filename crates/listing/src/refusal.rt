// Why a script is not listed.
ghost use Rattle.std.specs.Prelude.{◌≡◌};
ghost use Rattle.listing.specs.Refusals.{number_of};

#[derive(Clone, Copy, PartialEq, Eq, Debug)]
pub enum ListingError {
    // there is no such agent
    Unknown,
    // the output is shorter than the text
    Short,
}

impl ListingError {
    // The number by which a refusal is known.
    pub fn number(self) -> usize
        ensures { result ≡ number_of self }
    {
        match self {
            ListingError::Unknown => 1,
            ListingError::Short => 21,
        }
    }
}
