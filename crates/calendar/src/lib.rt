// The date in Paris at an instant, for every instant since 1970: the civil calendar, and the rule of document 01's
// `chrono_tz`.
#![tactic(auto)]

ghost use Rattle.std.specs.Prelude.{◌≡◌, ◌≤◌};
ghost use Rattle.calendar.specs.Civil.{leap_day, year_of, month_of, last_sunday};
ghost use Rattle.calendar.specs.Paris.{is_summer, offset_at, paris_day, paris_date, digit_of, digits_of, paris_digits};

// A day of a year, the first being 0.
#[derive(Clone, Copy)]
pub struct YearDay {
    pub year: u64,
    pub day: u64,
}

// Months and days are counted from 1.
#[derive(Clone, Copy, PartialEq, Eq, PartialOrd, Ord)]
pub struct Date {
    pub year: u64,
    pub month: u64,
    pub day: u64,
}

// 1 in a leap year, else 0.
#[tactic(auto, unfolding(crate::specs::Civil::leap_day))]
fn leap_day(year: u64) -> u64
    ensures value { result ≡ leap_day year }
    ensures small { result ≤ 1 }
{
    u64::from(year % 400 == 0 || year % 100 != 0 && year % 4 == 0)
}

// The year of the day n days after 1 January 1970.
fn year_of(n: u64) -> YearDay
    ensures value { result ≡ year_of n }
    ensures within { result.day ≤ n }
{
    let first = 1970 + n / 146097 * 400;
    let mut day = n % 146097;
    for year in first..first + 400 {
        let days = 365 + leap_day(year);
        if day < days {
            return YearDay { year, day };
        }
        day -= days;
    }
    YearDay {
        year: first + 400,
        day,
    }
}

// The month and the day of the month of a day of a year.
fn month_of(at: YearDay) -> Date
    ensures { result ≡ month_of at }
{
    let year = at.year;
    let february = 28 + leap_day(year);
    let months = [31, february, 31, 30, 31, 30, 31, 31, 30, 31, 30, 31];
    let mut day = at.day;
    for month in 0..12 {
        if day < months[month] {
            return Date {
                year,
                month: month as u64 + 1,
                day: day + 1,
            };
        }
        day -= months[month];
    }
    Date {
        year,
        month: 13,
        day,
    }
}

// The last Sunday up to day n, both counted from 1 January 1970, a Thursday.
fn last_sunday(n: u64) -> u64
    requires { 6 ≤ n }
    ensures { result ≡ last_sunday n }
{
    n - (n % 7 + 4) % 7
}

// Whether the clocks of Paris are two hours ahead at s.
#[tactic(auto, unfolding(crate::specs::Paris::is_summer))]
fn summer(s: u64) -> bool
    ensures { result ≡ is_summer s }
{
    let n = s / 86400;
    let at = year_of(n);
    let new_year = n - at.day;
    let leap = leap_day(at.year);
    let march = last_sunday(new_year + 89 + leap);
    let october = last_sunday(new_year + 303 + leap);
    if s < 3600 {
        return false;
    }
    let day = (s - 3600) / 86400;
    (march..october).contains(&day)
}

pub fn offset(s: u64) -> u64
    ensures { result ≡ offset_at s }
{
    if summer(s) { 7200 } else { 3600 }
}

// The day in Paris at s. The offset goes to the seconds of the day, so that no sum is too large.
fn paris_day(s: u64) -> u64
    ensures { result ≡ paris_day s }
{
    s / 86400 + (s % 86400 + offset(s)) / 86400
}

// The date in Paris at s.
pub fn paris_date(s: u64) -> Date
    ensures { result ≡ paris_date s }
{
    month_of(year_of(paris_day(s)))
}

// The last decimal digit of n, in ASCII.
fn digit(n: u64) -> u8
    ensures { result ≡ digit_of n }
{
    (48 + n % 10) as u8
}

// A date as eight digits.
pub fn date_digits(d: Date) -> [u8; 8]
    ensures { result ≡ digits_of d }
{
    [
        digit(d.year / 1000),
        digit(d.year / 100),
        digit(d.year / 10),
        digit(d.year),
        digit(d.month / 10),
        digit(d.month),
        digit(d.day / 10),
        digit(d.day),
    ]
}

// The date in Paris at s as eight digits.
pub fn paris_digits(s: u64) -> [u8; 8]
    ensures { result ≡ paris_digits s }
{
    date_digits(paris_date(s))
}
