ghost use Rattle.std.specs.Prelude.{◌≡◌};
ghost use Rattle.dsv_dates.specs.Dates.{two_digits, four_digits, six_digits, clock_text};

/// The last two digits of a number.
pub fn two_digits(number: u32) -> [u8; 2]
    ensures { result ≡ two_digits number }
{
    [b'0' + (number / 10 % 10) as u8, b'0' + (number % 10) as u8]
}

/// The last four digits of a number.
pub fn four_digits(number: u32) -> [u8; 4]
    ensures { result ≡ four_digits number }
{
    let front = two_digits(number / 100);
    let back = two_digits(number);
    [front[0], front[1], back[0], back[1]]
}

/// The last six digits of a number.
pub fn six_digits(number: u32) -> [u8; 6]
    ensures { result ≡ six_digits number }
{
    let front = two_digits(number / 10_000);
    let back = four_digits(number);
    [front[0], front[1], back[0], back[1], back[2], back[3]]
}

/// The hour, the minute and the second of a second of the day, with colons between them.
pub fn clock_text(second: u32) -> [u8; 8]
    ensures { result ≡ clock_text second }
{
    let hour = two_digits(second / 3600);
    let minute = two_digits(second / 60 % 60);
    let second = two_digits(second % 60);
    [
        hour[0], hour[1], b':', minute[0], minute[1], b':', second[0], second[1],
    ]
}
