ghost use Rattle.dsv_dates.specs.Laws.{EachDayIsDated, NoOtherDate, IsoTextsDiffer, HttpTextsDiffer};

/// Each day from 1970 to 9999 has the date of the calendar that its number stands for.
pub fn each_day_has_its_date()
    ensures { EachDayIsDated }
{}

/// And it has no other date.
pub fn no_day_has_another()
    ensures { NoOtherDate }
{}

/// Different moments are written differently by `iso_text`.
pub fn iso_texts_differ()
    ensures { IsoTextsDiffer }
{}

/// Moments in different seconds are written differently by `http_text`.
pub fn http_texts_differ()
    ensures { HttpTextsDiffer }
{}
