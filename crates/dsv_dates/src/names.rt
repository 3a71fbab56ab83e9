ghost use Rattle.std.specs.Prelude.{◌≡◌, ◌≤◌};
ghost use Rattle.dsv_dates.specs.Dates.{weekday_name, month_name};

/// The first three letters of the day of the week.
pub fn weekday_name(number: u32) -> [u8; 3]
    ensures { result ≡ weekday_name number }
{
    match number % 7 {
        0 => *b"Thu",
        1 => *b"Fri",
        2 => *b"Sat",
        3 => *b"Sun",
        4 => *b"Mon",
        5 => *b"Tue",
        _ => *b"Wed",
    }
}

/// The first three letters of a month.
pub fn month_name(month: u32) -> [u8; 3]
    requires low { 1 ≤ month }
    requires high { month ≤ 12 }
    ensures { result ≡ month_name month }
{
    match month {
        1 => *b"Jan",
        2 => *b"Feb",
        3 => *b"Mar",
        4 => *b"Apr",
        5 => *b"May",
        6 => *b"Jun",
        7 => *b"Jul",
        8 => *b"Aug",
        9 => *b"Sep",
        10 => *b"Oct",
        11 => *b"Nov",
        _ => *b"Dec",
    }
}
