// Clock times: seconds since 1970-01-01 00:00:00, or the first wrong field.
#![tactic(auto)]

ghost use Rattle.std.specs.Prelude.{cond, ◌≡◌, ℕ, ◌+◌, ◌-◌, ◌^◌, ◌≤◌, ◌<◌, ltb};
ghost use Rattle.calendar.specs.Calendar.{leap, plain_days, month_days, years_to, months_to, days_to};
ghost use Rattle.calendar.specs.Clocks.{seconds_of, clock_of, binary_clock_of};

// A date and a time of day, in numbers that may be wrong. The year's number counts from the first year of the format.
#[derive(Clone, Copy, Debug, Default, PartialEq, Eq)]
pub struct DateTime {
    pub year: u8,
    pub month: u8,
    pub day: u8,
    pub hour: u8,
    pub minute: u8,
    pub second: u8,
}

#[derive(Clone, Copy, Debug, PartialEq, Eq)]
pub enum Field {
    Month,
    Day,
    Hour,
    Minute,
    Second,
    Year,
}

// What a clock says. (Document 01: "unset, good, or wrong with the first wrong field named".)
// Kept: three cases, where Result has two: document 01 names them.
#[derive(Clone, Copy, Debug, PartialEq, Eq)]
pub enum Clock {
    Unset,
    // Seconds since 1970-01-01 00:00:00; below 0 before it.
    Good(i64),
    Wrong(Field),
}

// The days of January to December, February without its leap day; no month has the number 0.
static MONTHS: [u8; 13] = [0, 31, 28, 31, 30, 31, 30, 31, 31, 30, 31, 30, 31];

// The days of a year's months before each month, without a leap day.
static BEFORE: [u16; 13] = [0, 0, 31, 59, 90, 120, 151, 181, 212, 243, 273, 304, 334];

// From 0000-01-01 to 1970-01-01.
const SECONDS_TO_1970: i64 = 62_167_219_200;

// 4 divides the year, and where 100 does, 400 does too. Of the years that 25 divides, 100 divides those that 4 does, and 400 those that 16
// does: a choice between two remainders, and no branch.
#[tactic(auto, using(crate::proofs::Years::by_16, crate::proofs::Years::by_4))]
pub fn is_leap(year: u32) -> bool
    ensures { result ≡ leap year }
{
    if year % 25 == 0 {
        return year % 16 == 0;
    }
    year % 4 == 0
}

// The days of a month without its leap day.
#[tactic(auto, using(crate::proofs::Months::tabled, crate::proofs::Months::plain_le))]
fn plain_days(month: u8) -> u8
    ensures days { result ≡ plain_days month }
    ensures bound { result ≤ 31 }
{
    MONTHS.get(usize::from(month)).copied().unwrap_or(0)
}

// The days of a month; `long` says that its year is a leap year.
#[tactic(auto, using(crate::proofs::Months::extra_day), unfolding(crate::specs::Calendar::leap_day, crate::specs::Calendar::month_days))]
fn length_of(long: bool, month: u8) -> u8
    ensures { (y : ℕ) → long ≡ leap y → result ≡ month_days y month }
{
    let extra = (month == 2) & long;
    plain_days(month) + u8::from(extra)
}

// The days of a month, which counts from 1; none for a month that is none.
pub fn month_days(year: u32, month: u8) -> u8
    ensures { result ≡ month_days year month }
{
    length_of(is_leap(year), month)
}

// The days of the years from 0 to the one before `year`: 365 each, and one more in each leap year.
#[tactic(auto, using(crate::proofs::Years::counted))]
fn days_before_year(year: u32) -> u64
    ensures days { result ≡ years_to year }
    ensures bound { result < 2 ^ 41 }
{
    let n = u64::from(year);
    let centuries = (n + 99) / 100;
    365 * n + (n + 3) / 4 - centuries + (centuries + 3) / 4
}

// The days of a year's months before `month`, without a leap day.
#[tactic(auto, using(crate::proofs::Months::before, crate::proofs::Months::before_le))]
fn plain_before(month: u8) -> u16
    requires { month ≤ 12 }
    ensures days { (y : ℕ) → result + cond (ltb 2 month) (cond (leap y) 1 0) 0 ≡ months_to y (month - 1) }
    ensures bound { result ≤ 334 }
{
    BEFORE[usize::from(month)]
}

// The days of the months before `month` of a year that is a leap year or not.
fn days_before_month(long: bool, month: u8) -> u64
    requires { month ≤ 12 }
    ensures days { (y : ℕ) → long ≡ leap y → result ≡ months_to y (month - 1) }
    ensures bound { result < 2 ^ 12 }
{
    let extra = (2 < month) & long;
    u64::from(plain_before(month)) + u64::from(extra)
}

// The days from 0000-01-01 to a date that is right.
#[tactic(auto, unfolding(crate::specs::Calendar::days_to))]
fn days_from_0(year: u32, long: bool, month: u8, day: u8) -> u64
    requires leap { long ≡ leap year }
    requires month { month ≤ 12 }
    requires day { 1 ≤ day }
    ensures days { result ≡ days_to year month day }
    ensures bound { result < 2 ^ 42 }
{
    days_before_year(year) + days_before_month(long, month) + u64::from(day - 1)
}

fn seconds_from_0(days: u64, hour: u8, minute: u8, second: u8) -> u64
    requires { days < 2 ^ 42 }
    ensures seconds { result ≡ seconds_of days hour minute second }
    ensures bound { result < 2 ^ 63 }
{
    ((days * 24 + u64::from(hour)) * 60 + u64::from(minute)) * 60 + u64::from(second)
}

// The clock of a date and time, whose year number counts from `first`. A year number over `largest` is wrong.
// Kept: `first` and `largest` are no struct: two functions take them, each caller gives two literals, and a struct would only wrap these.
#[tactic(auto, using(std::proofs::lemmas::Bool::Decides::leb_tells), unfolding(crate::specs::Clocks::clock_of))]
pub fn clock_of(t: DateTime, first: u16, largest: u8) -> Clock
    ensures { result ≡ clock_of t first largest }
{
    let year = first as u32 + t.year as u32;
    if t.month < 1 || 12 < t.month {
        return Clock::Wrong(Field::Month);
    }
    if t.day < 1 || month_days(year, t.month) < t.day {
        return Clock::Wrong(Field::Day);
    }
    if 23 < t.hour {
        return Clock::Wrong(Field::Hour);
    }
    if 59 < t.minute {
        return Clock::Wrong(Field::Minute);
    }
    if 59 < t.second {
        return Clock::Wrong(Field::Second);
    }
    if largest < t.year {
        return Clock::Wrong(Field::Year);
    }
    let days = days_from_0(year, is_leap(year), t.month, t.day);
    Clock::Good(seconds_from_0(days, t.hour, t.minute, t.second) as i64 - SECONDS_TO_1970)
}

// The clock of the six bytes of a binary format: six zeros are unset.
#[tactic(auto, using(crate::proofs::Answers::zeros), unfolding(crate::specs::Clocks::binary_clock_of))]
pub fn binary_clock(t: DateTime, first: u16, largest: u8) -> Clock
    ensures { result ≡ binary_clock_of t first largest }
{
    if t == DateTime::default() {
        return Clock::Unset;
    }
    clock_of(t, first, largest)
}
