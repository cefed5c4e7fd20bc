// Dates: leap years, weekdays, months and seasons (Rules 3.1 and 3.2). It meets specs/Dates. The days of a year count
// from 1.
// Main theorem: the weekday by three divisions is the weekday by counting every day, each 29 February with them, in
// every year (`weekday_by_leaps`, proofs/Weekdays).
#![tactic(auto)]

ghost use Rattle.std.specs.Prelude.{◌≡◌, ◌<◌};
ghost use Rattle.dates.specs.Dates.{leap, leap_day, year_days, days_to, day_number, month_of, weekday_of, last_sunday, season_of, month_left};

// The most days that a year has.
pub const MOST_DAYS: usize = 366;

// The months in which the clock is changed; months count from 1.
pub const MARCH: u16 = 3;

pub const OCTOBER: u16 = 10;

// The days before each month of a common year, and before the next year; each month's season, from 1. January is at
// place 0.
const DAYS_BEFORE: [u16; 13] = [0, 31, 59, 90, 120, 151, 181, 212, 243, 273, 304, 334, 365];

// Kept: seasons are numbers, since a season's place in a sheet, a curve and a table is computed from its number.
const SEASONS: [u8; 12] = [1, 1, 2, 2, 2, 3, 3, 3, 4, 4, 4, 1];

const MONTHS: usize = 12;

// Has a year a 29 February?
fn is_leap(year: u16) -> bool
    ensures { result ≡ leap year }
{
    (year % 4 == 0) & ((year % 100 != 0) | (year % 400 == 0))
}

// How many it has: 1 or 0.
fn leap_day(year: u16) -> u16
    ensures { (result ≡ leap_day year) × (result < 2) }
{
    u16::from(is_leap(year))
}

// How many days any year has.
pub fn year_days(year: u16) -> u16
    ensures { result ≡ year_days year }
{
    365 + leap_day(year)
}

// The days before a month, which counts from 0 here: 0 is January, 12 is January of the next year.
fn days_to(year: u16, month: usize) -> u16
    requires { month < 13 }
    ensures { (result ≡ days_to year month) × (result < 367) }
{
    if month < 2 {
        DAYS_BEFORE[month]
    } else {
        DAYS_BEFORE[month] + leap_day(year)
    }
}

// Kept: 0 and no Option, as `day_number` (Dates) defines it: a listed date of another year is 0, too, which is no day.
// The number of a date in its year, from 1; 0 where the year does not have it. Months and days count from 1.
pub fn day_number(year: u16, month: u16, day: u16) -> u16
    ensures { result ≡ day_number year month day }
{
    if (month < 1) | (12 < month) {
        return 0;
    }
    let before = days_to(year, (month - 1) as usize);
    let end = days_to(year, month as usize);
    if (day < 1) | (end - before < day) {
        return 0;
    }
    before + day
}

// Kept: the months are a range and no list, and `find` with December for none of them says it no plainer.
// The month of a day, 1 to 12: the first that does not end before it.
fn month(year: u16, day: u16) -> usize
    ensures { result ≡ month_of year day }
{
    for m in 1..MONTHS {
        if day <= days_to(year, m) {
            return m;
        }
    }
    MONTHS
}

// The season of any day of any year, 1 winter to 4 autumn. Day 0 counts to January, a day past the year to December.
pub fn season(year: u16, day: u16) -> u8
    ensures { result ≡ season_of year day }
{
    let m = month(year, day);
    SEASONS[m - 1]
}

// How many days of its month come after a day: they lie in its season, too. None past the year.
pub fn month_left(year: u16, day: u16) -> u16
    ensures { result ≡ month_left year day }
{
    let end = days_to(year, month(year, day));
    end.saturating_sub(day)
}

// Kept: weekdays are numbers: a day's is computed by a remainder, and what is free or last is told by their order.
// The weekday of any day of any year, 0 Monday to 6 Sunday. Years are not looped over: the leap days before a year are
// counted by three divisions.
pub fn weekday(year: u16, day: u16) -> u8
    ensures { result ≡ weekday_of year day }
{
    let y = u32::from(year);
    let leaps = (y + 3) / 4 - (y + 99) / 100 + (y + 399) / 400;
    ((y + leaps + u32::from(day) + 4) % 7) as u8
}

// The last Sunday of a month, which counts from 1, as a day of the year; 0 for a month that there is not.
// Kept: 0 and no Option, as `last_sunday` (Dates) defines it: the promise is that equation.
pub fn last_sunday(year: u16, month: u16) -> u16
    ensures { result ≡ last_sunday year month }
{
    if (month < 1) | (12 < month) {
        return 0;
    }
    let end = days_to(year, month as usize);
    end - (weekday(year, end) as u16 + 1) % 7
}
