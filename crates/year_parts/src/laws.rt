// Laws of the definitions, each the clause of a function with nothing to do.
ghost use Rattle.std.specs.Prelude.{◌≡◌, pos};
ghost use Rattle.year_parts.specs.Basis.{EachYearIsWhole};
ghost use Rattle.year_parts.specs.Parts.{parts_in_year};

use crate::PARTS_IN_YEAR;

// A year of each length has one number of parts, and the constant is that number.
fn each_year_is_whole()
    ensures whole { EachYearIsWhole }
    ensures constant { PARTS_IN_YEAR ≡ pos parts_in_year }
{}
