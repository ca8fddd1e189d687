// Laws of the definitions that the other clauses cite, each the clause of a function with nothing to do.
ghost use Rattle.day_number.specs.Day.{EachDateHasANumber, EachNumberHasADate, NoNumberHasTwoDates};
ghost use Rattle.day_number.specs.Shift.{AreJiffsMonths};
ghost use Rattle.day_number.specs.Text.{ReadsWhatIsPrinted, ReadsTenors};

// The numbers of the range are exactly the days of 1901 to 2199, one to one.
fn numbers_are_days()
    ensures number { EachDateHasANumber }
    ensures date { EachNumberHasADate }
    ensures one { NoNumberHasTwoDates }
{}

// A day is read exactly from the text that it is printed as.
fn days_are_read_as_printed()
    ensures { ReadsWhatIsPrinted }
{}

// A tenor is read exactly from its count without leading zeros and its unit's letter.
fn tenors_are_read()
    ensures { ReadsTenors }
{}

// A day moved by months is the one that jiff moves it to.
fn months_are_jiffs()
    ensures { AreJiffsMonths }
{}
