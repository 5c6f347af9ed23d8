// Gregorian days of 2000 to 2099, written yyyymmdd.
#![tactic(auto)]

ghost use Rattle.std.specs.Prelude.{◌≡◌};
ghost use Rattle.dates.specs.Calendar.{leap_year, short_month, days_in, is_day};

#[tactic(auto, unfolding(crate::specs::Calendar::leap_year))]
pub fn is_leap(year: u32) -> bool
    ensures { result ≡ leap_year year }
{
    year % 4 == 0 && (year % 100 != 0 || year % 400 == 0)
}

// April, June, September or November.
#[tactic(auto, unfolding(crate::specs::Calendar::short_month))]
fn is_short(month: u32) -> bool
    ensures { result ≡ short_month month }
{
    matches!(month, 4 | 6 | 9 | 11)
}

// How many days a month of a year has.
#[tactic(auto, unfolding(crate::specs::Calendar::days_in))]
pub fn days_in(year: u32, month: u32) -> u32
    ensures { result ≡ days_in year month }
{
    match month {
        2 if is_leap(year) => 29,
        2 => 28,
        _ if is_short(month) => 30,
        _ => 31,
    }
}

// Whether a number is a day written yyyymmdd.
#[tactic(auto, unfolding(crate::specs::Calendar::is_day))]
pub fn is_day(date: u32) -> bool
    ensures { result ≡ is_day date }
{
    let year = date / 10000;
    let month = date / 100 % 100;
    let day = date % 100;
    (2000..=2099).contains(&year)
        && (1..=12).contains(&month)
        && (1..=days_in(year, month)).contains(&day)
}
