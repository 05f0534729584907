// What a listing tells. Nothing here computes: each function carries one theorem in its contract.
ghost use Rattle.listing.specs.Apart.{ListingsTellScriptsApart};
ghost use Rattle.listing.specs.Decimal.{NumbersHaveOneDecimal};

// Of the digits with no 0 in front of others, the decimal of a number alone stands for it; no digits that stand for it are fewer.
pub fn numbers_have_one_decimal()
    ensures { NumbersHaveOneDecimal }
{}

// Scripts with the same listing have the same instructions, and are one agent's unless they are empty.
pub fn listings_tell_scripts_apart()
    ensures { ListingsTellScriptsApart }
{}
