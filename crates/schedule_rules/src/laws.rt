// Laws of the definitions, each the clause of a function with nothing to do.
ghost use Rattle.schedule_rules.specs.Raw.{RawDaysAreSteps};
ghost use Rattle.schedule_rules.specs.Schedule.{SchedulesAreAdjustedDays, SchedulesBeginAndEnd, SchedulesGoByTheDays};

// The raw days are start, end, the stubs' days and the steps of any count of tenors.
fn raw_days_are_steps()
    ensures { RawDaysAreSteps }
{}

// A schedule is the adjusted end and the adjusted days before it, in the order of time.
fn schedules_are_adjusted_days()
    ensures { SchedulesAreAdjustedDays }
{}

// The first day of a schedule is the adjusted start, and the last is the adjusted end.
fn schedules_begin_and_end()
    ensures { SchedulesBeginAndEnd }
{}

// A schedule goes by the business days and not by the reference that a plan holds to its calendar.
fn schedules_go_by_the_days()
    ensures { SchedulesGoByTheDays }
{}
