// Laws of the definitions, each the clause of a function with nothing to do.
ghost use Rattle.day_shift.specs.Adjusted.{AdjustedIsTheDay, BusinessDaysStay, AdjustedIsOpen, AdjustedKeepsOrder};
ghost use Rattle.day_shift.specs.Advanced.{AdvancedIsTheDay, AdvancedIsOpen, AdvancedIsNotBefore, DaysAfterAreCounted, DaysBeforeAreCounted};
ghost use Rattle.day_shift.specs.Business.{NextIsLeast, PreviousIsGreatest};
ghost use Rattle.holiday_calendars.specs.Counted.{CountIsOfTheDays};
ghost use Rattle.day_shift.specs.Month.{OneMonthIsYearAndMonth};
ghost use Rattle.day_shift.specs.MonthEnd.{LastOpenIsGreatest, NoLastOpenIsNoBusinessDay};

// The next business day is the least at or after a day.
fn next_is_least()
    ensures { NextIsLeast }
{}

// The previous business day is the greatest at or before a day.
fn previous_is_greatest()
    ensures { PreviousIsGreatest }
{}

// Days with one last day of the month are those of one month of one year.
fn one_month_is_year_and_month()
    ensures { OneMonthIsYearAndMonth }
{}

// The last business day of a month is the greatest one of the month, and there is none exactly where it has none.
fn last_open_is_greatest()
    ensures day { LastOpenIsGreatest }
    ensures none { NoLastOpenIsNoBusinessDay }
{}

// The adjusted day is that of the set of business days.
fn adjusted_is_the_day()
    ensures { AdjustedIsTheDay }
{}

// The business days between two days are as many as the rising list of them has.
fn count_is_of_the_days()
    ensures { CountIsOfTheDays }
{}

// n business days after a day is the business day with exactly n business days behind it.
fn days_after_are_counted()
    ensures { DaysAfterAreCounted }
{}

// n business days before a day is the business day with exactly n business days from itself on to the day.
fn days_before_are_counted()
    ensures { DaysBeforeAreCounted }
{}

// A count of a unit leads to the day that it does over the set of business days.
fn advanced_is_the_day()
    ensures { AdvancedIsTheDay }
{}

// Each convention keeps business days, leads to them (but Unadjusted), and keeps the order of days.
fn adjusted_days_are_open()
    ensures stay { BusinessDaysStay }
    ensures is_open { AdjustedIsOpen }
    ensures order { AdjustedKeepsOrder }
{}

// A count of a unit leads to a business day, and on from a business day not back.
fn advanced_days_are_open()
    ensures is_open { AdvancedIsOpen }
    ensures order { AdvancedIsNotBefore }
{}
