//! What times are: the moments of dates, the texts that spell times, and how a time is printed. Nothing here runs.
#![tactic(auto)]

ghost use Rattle.time_meaning.specs.Laws.{DatesOfDays};

/// Each date from the year 1 on is the one of its day number.
pub fn dates_of_days()
    ensures { DatesOfDays }
{}
