// Laws of the definitions, each the clause of a function with nothing to do.
ghost use Rattle.day_counters.specs.CivilDate.{NeitherIsNegative};

// Taking a negative count of 30/360 as 0 changes no fraction from a day to one not before it.
fn neither_count_is_negative()
    ensures { NeitherIsNegative }
{}
