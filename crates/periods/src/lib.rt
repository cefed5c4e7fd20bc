// The reference period of a charge year: its days, their dates and seasons (Rule 4.1). It meets specs/Period. The
// period's days k count from 1.
// Main theorem: it begins with 1 September of the year two before the charge year, and ends with 31 August of the year
// before, in every charge year (`period_first`, `period_last`, proofs/Periods).
#![tactic(auto)]

ghost use Rattle.std.specs.Prelude.{◌≡◌, ◌-◌};
ghost use Rattle.periods.specs.Period.{period_days, period_date, period_season, period_left, october_sunday, march_sunday};

// How many days September to December have, in any year.
const LATE_DAYS: u16 = 122;

// A day, from 1, of a year.
#[derive(Clone, Copy)]
struct Date {
    year: u16,
    day: u16,
}

// The year n years before, and year 0 where there is none.
fn years_back(year: u16, n: u16) -> u16
    ensures { result ≡ year - n }
{
    year.saturating_sub(n)
}

// How many days the reference period of any charge year has: as many as the year in which it ends.
pub fn period_days(year: u16) -> u16
    ensures { result ≡ period_days year }
{
    dates::year_days(years_back(year, 1))
}

// The date of day k, from 1, of the reference period.
fn period_date(year: u16, k: u16) -> Date
    ensures { result ≡ period_date year k }
{
    if k <= LATE_DAYS {
        let start = years_back(year, 2);
        Date {
            year: start,
            day: dates::year_days(start) - LATE_DAYS + k,
        }
    } else {
        Date {
            year: years_back(year, 1),
            day: k - LATE_DAYS,
        }
    }
}

// The season, 1 to 4, of any day k, from 1, of the reference period of any charge year.
pub fn period_season(year: u16, k: u16) -> u8
    ensures { result ≡ period_season year k }
{
    let date = period_date(year, k);
    dates::season(date.year, date.day)
}

// How many days of its month come after day k, from 1, of the reference period.
pub fn period_left(year: u16, k: u16) -> u16
    ensures { result ≡ period_left year k }
{
    let date = period_date(year, k);
    dates::month_left(date.year, date.day)
}

// The last Sunday in October as a day, from 1, of the reference period: it lies in the year two before.
pub fn october_sunday(year: u16) -> u16
    ensures { result ≡ october_sunday year }
{
    let first = years_back(year, 2);
    dates::last_sunday(first, dates::OCTOBER) - (dates::year_days(first) - LATE_DAYS)
}

// The last Sunday in March as a day, from 1, of the reference period: it lies in the year before.
pub fn march_sunday(year: u16) -> u16
    ensures { result ≡ march_sunday year }
{
    LATE_DAYS + dates::last_sunday(years_back(year, 1), dates::MARCH)
}
