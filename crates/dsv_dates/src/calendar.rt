ghost use Rattle.std.specs.Prelude.{◌≡◌, ◌+◌, ◌-◌, ◌*◌, ◌/◌, ◌<◌, ◌≤◌};
ghost use Rattle.dsv_dates.specs.Dates.{is_leap_year, month_days, year_days, part_at, year_at, month_at, date_at};
ghost use Rattle.dsv_dates.specs.Counting.{days_before};

/// A day of the calendar. Months and days of a month are counted from 1.
#[derive(Clone, Copy)]
pub struct Date {
    pub year: u32,
    pub month: u32,
    pub day: u32,
}

/// The days from the start of the year 1 to that of 1970.
const DAYS_BEFORE_1970: u32 = 719_162;

/// The days of 400 years.
const DAYS_OF_400_YEARS: u32 = 146_097;

/// The date of the day that so many days lie before, from the start of 1970 on.
pub fn date_of(number: u32) -> Date
    requires { number < 2932897 }
    ensures value { (result.year, result.month, result.day) ≡ date_at number }
    ensures low { 1 ≤ result.month }
    ensures high { result.month ≤ 12 }
{
    let (year, passed) = year_of(number);
    let (month, passed) = month_of(year, passed);
    Date {
        year,
        month,
        day: passed + 1,
    }
}

/// The year of a day, and how many days of that year have passed.
fn year_of(number: u32) -> (u32, u32)
    requires { number < 2932897 }
    ensures value { (result.0, result.1) ≡ year_at number }
    ensures within { result.1 < year_days result.0 }
    ensures year { result.0 ≤ 9999 }
{
    let passed = number + DAYS_BEFORE_1970;
    let years = years_in(passed);
    (years + 1, passed - days_before(years))
}

/// How many whole years have passed since the start of the year 1. A year has 365.2425 days on average, and
/// none begins a whole day later or two days earlier than that says: so the guess by it is right, or one year
/// short.
fn years_in(passed: u32) -> u32
    requires { passed < 3652059 }
    ensures begun { days_before result ≤ passed }
    ensures lasts { passed < days_before (result + 1) }
    ensures most { result ≤ 9998 }
{
    let years = passed * 400 / DAYS_OF_400_YEARS;
    if days_before(years + 1) <= passed {
        years + 1
    } else {
        years
    }
}

/// The days of so many years from the year 1 on.
fn days_before(years: u32) -> u32
    requires { years ≤ 9999 }
    ensures { result ≡ days_before years }
{
    years * 365 + years / 4 - years / 100 + years / 400
}

/// The month of a day, and how many days of that month have passed, from how many of its year have passed.
fn month_of(year: u32, passed: u32) -> (u32, u32)
    requires { passed < year_days year }
    ensures value { (result.0, result.1) ≡ month_at year passed }
    ensures low { 1 ≤ result.0 }
    ensures high { result.0 ≤ 12 }
    ensures bound { result.1 < 31 }
{
    let mut left = passed;
    'months: for month in 1..12 {
        let days = month_days(year, month);
        if left < days {
            return (month, left);
        }
        left -= days;
    }
    (12, left)
}

/// How many days a month has.
fn month_days(year: u32, month: u32) -> u32
    ensures value { result ≡ month_days year month }
    ensures bound { result ≤ 31 }
{
    match month {
        2 => { if is_leap_year(year) { 29 } else { 28 } }
        4 | 6 | 9 | 11 => 30,
        _ => 31,
    }
}

/// Whether a year has a 29 February.
fn is_leap_year(year: u32) -> bool
    ensures { result ≡ is_leap_year year }
{
    year % 4 == 0 && (year % 100 != 0 || year % 400 == 0)
}
