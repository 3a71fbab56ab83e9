ghost use Rattle.std.specs.Prelude.{◌≡◌, ◌/◌, ◌≤◌};
ghost use Rattle.dsv_dates.specs.Dates.{iso_text, http_text};

use crate::calendar::date_of;
use crate::digits::{clock_text, four_digits, six_digits, two_digits};
use crate::names::{month_name, weekday_name};
use dsv_base::Moment;

/// The seconds of a day.
const DAY: u64 = 86_400;

/// A moment as Subversion writes it, `2024-01-01T00:00:01.000000Z`: the form of RFC 3339 with six digits of
/// a second, in UTC.
pub fn iso_text(moment: Moment) -> [u8; 27]
    ensures { result ≡ iso_text moment }
{
    let micros = moment.get();
    let seconds = seconds_of(moment);
    let date = date_of((seconds / DAY) as u32);
    let year = four_digits(date.year);
    let month = two_digits(date.month);
    let day = two_digits(date.day);
    let clock = clock_text((seconds % DAY) as u32);
    let rest = six_digits((micros % 1_000_000) as u32);
    [
        year[0], year[1], year[2], year[3], b'-', month[0], month[1], b'-', day[0], day[1], b'T',
        clock[0], clock[1], clock[2], clock[3], clock[4], clock[5], clock[6], clock[7], b'.',
        rest[0], rest[1], rest[2], rest[3], rest[4], rest[5], b'Z',
    ]
}

/// The second of a moment as HTTP writes it, `Mon, 01 Jan 2024 00:00:01 GMT`: IMF-fixdate of RFC 9110,
/// section 5.6.7. What has passed of the next second is left out.
pub fn http_text(moment: Moment) -> [u8; 29]
    ensures { result ≡ http_text moment }
{
    let seconds = seconds_of(moment);
    let number = (seconds / DAY) as u32;
    let date = date_of(number);
    let weekday = weekday_name(number);
    let day = two_digits(date.day);
    let month = month_name(date.month);
    let year = four_digits(date.year);
    let clock = clock_text((seconds % DAY) as u32);
    [
        weekday[0], weekday[1], weekday[2], b',', b' ', day[0], day[1], b' ', month[0], month[1],
        month[2], b' ', year[0], year[1], year[2], year[3], b' ', clock[0], clock[1], clock[2],
        clock[3], clock[4], clock[5], clock[6], clock[7], b' ', b'G', b'M', b'T',
    ]
}

/// The whole seconds that have passed since the start of 1970.
fn seconds_of(moment: Moment) -> u64
    ensures value { result ≡ moment / 1000000 }
    ensures bound { result ≤ 253402300799 }
{
    moment.get() / 1_000_000
}
