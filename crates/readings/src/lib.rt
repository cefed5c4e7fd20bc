// Readings: where the days of a lent series stand, which quarter a reading is for, and the part of a series that is one
// day (Rules 2.4, 9.1 and 9.2). It meets specs/Runs and specs/Part; how it does without weekdays on most days is in
// specs/Near.
// Main theorem: a series is answered the same whole and day by day (Rule 9.4; `Machine`, `as_whole`, `same_bad`,
// proofs/Machines).
#![tactic(auto)]

ghost use Rattle.std.specs.Prelude.{◌≡◌, ◌≤◌};
ghost use Rattle.ranges.specs.Limits.{outside};
ghost use Rattle.editions.specs.Editions.{edition_of};
ghost use Rattle.readings.specs.Runs.{run_days, change_of, len_by, span_by, day_len, quarter_in, run_readings};
ghost use Rattle.readings.specs.Near.{latest_of, four_before};
ghost use Rattle.readings.specs.Part.{run_year, no_day, run_part, day_part};

use editions::Editions;

// The days whose readings a series holds: those of a charge year, or of its reference period.
#[derive(Clone, Copy)]
pub enum Run {
    Year(u16),
    Period(u16),
}

// A run's two Sundays on which the clock is changed, as days from 0: in March a day is short, in October one is long.
#[derive(Clone, Copy)]
pub struct Change {
    pub short: u16,
    pub long: u16,
}

// Where a day of a run stands in its series: behind how many readings, and how many are its own.
#[derive(Clone, Copy)]
pub struct DaySpan {
    pub start: usize,
    pub len: usize,
}

// How many readings the short Sunday has; and the long one: no day has more.
pub const LEAST_READINGS: usize = 92;

pub const MOST_READINGS: usize = 100;

// The number of taken days in the state of a refused opening: more than any run has, so that it takes no day and never
// closes (Rule 9.5).
// Kept: a number, since a refused opening hands back a fixed state whose figures the contracts name (Rule 9.5).
pub const SHUT_DAYS: u16 = 65535;

// How many days a run has.
pub fn run_days(run: Run) -> u16
    ensures { result ≡ run_days run }
{
    match run {
        Run::Year(year) => dates::year_days(year),
        Run::Period(year) => periods::period_days(year),
    }
}

// A run's two Sundays. A pass over a series asks for them once, and hands them on.
pub fn change_of(run: Run) -> Change
    ensures { result ≡ change_of run }
{
    match run {
        Run::Year(year) => Change {
            short: dates::last_sunday(year, dates::MARCH) - 1,
            long: dates::last_sunday(year, dates::OCTOBER) - 1,
        },
        Run::Period(year) => Change {
            short: periods::march_sunday(year) - 1,
            long: periods::october_sunday(year) - 1,
        },
    }
}

// How many readings a day, from 0, has where these are the two Sundays.
// Kept: `len_by` and `span_by` are functions: docs name them as calls, and as methods they would say no more, since any
// two Sundays have an answer.
pub fn len_by(change: Change, d: u16) -> usize
    ensures { result ≡ len_by change d }
{
    if d == change.short {
        return LEAST_READINGS;
    }
    if d == change.long {
        return MOST_READINGS;
    }
    answers::DAY_QUARTERS
}

// The four readings that a Sunday lacks or has more, where it comes before day d; else none.
fn four_before(sunday: u16, d: u16) -> usize
    ensures { (result ≡ four_before sunday d) × (result ≤ 4) }
{
    if sunday < d { 4 } else { 0 }
}

// Where a day, from 0, stands in a series where these are the two Sundays. (Of two that are one day, which no run has,
// the short one counts.)
pub fn span_by(change: Change, d: u16) -> DaySpan
    ensures { result ≡ span_by change d }
{
    let len = len_by(change, d);
    let usual = answers::DAY_QUARTERS * usize::from(d);
    let lost = four_before(change.short, d);
    if change.long == change.short {
        return DaySpan {
            start: usual - lost,
            len,
        };
    }
    DaySpan {
        start: usual + four_before(change.long, d) - lost,
        len,
    }
}

// The latest days that a run's two Sundays can be.
fn latest(run: Run) -> Change
    ensures { result ≡ latest_of run }
{
    match run {
        Run::Year(year) => Change {
            short: 90,
            long: 304,
        },
        Run::Period(year) => Change {
            short: 212,
            long: 60,
        },
    }
}

// Is a day none of those from `first` to `last`?
fn is_outside(first: u16, last: u16, d: u16) -> bool
    ensures { result ≡ outside first last d }
{
    !(first..=last).contains(&d)
}

// How many readings a day of a run, from 0, has: for days that come singly. The run's own Sundays are asked for only
// where the day may be one of them, so that most days cost no weekday.
pub fn day_len(run: Run, d: u16) -> usize
    ensures { result ≡ day_len run d }
{
    let late = latest(run);
    if is_outside(late.short - 7, late.short, d) & is_outside(late.long - 7, late.long, d) {
        return answers::DAY_QUARTERS;
    }
    len_by(change_of(run), d)
}

// The quarter that a position stands for, both from 0, on a day of n readings.
pub fn quarter_in(n: usize, position: usize) -> usize
    ensures { result ≡ quarter_in n position }
{
    if n == LEAST_READINGS {
        return if (position < 8) | (91 < position) {
            position
        } else {
            position + 4
        };
    }
    if n == MOST_READINGS {
        return if position < 12 {
            position
        } else {
            position - 4
        };
    }
    position
}

// How many readings a whole run has: what one Sunday lacks the other has more.
pub fn run_readings(run: Run) -> usize
    ensures { result ≡ run_readings run }
{
    answers::DAY_QUARTERS * usize::from(run_days(run))
}

// The charge year that a run belongs to.
fn run_year(run: Run) -> u16
    ensures { result ≡ run_year run }
{
    match run {
        Run::Year(year) | Run::Period(year) => year,
    }
}

// Does a run not have a day, from 1?
fn no_day(run: Run, day: usize) -> bool
    ensures { result ≡ no_day run day }
{
    (day == 0) | (usize::from(run_days(run)) < day)
}

// The part of a series that is a day, from 1, of a run of any charge year: empty where the run has no such day, and for
// a day of which the series does not have all readings.
// Kept: `as u16`, since a day of a run always fits, and `try_from` would ask for an answer to a refusal that cannot be.
// Kept: an empty part and no Option, here and in `day_part`: the call refuses nothing (Rule 9.2).
pub fn run_part(run: Run, series: &[u32], day: usize) -> &[u32]
    ensures { result.now ≡ run_part run series.now day }
{
    if no_day(run, day) {
        return &series[0..0];
    }
    let span = span_by(change_of(run), (day - 1) as u16);
    let start = span.start;
    let end = start + span.len;
    if series.len() < end {
        return &series[0..0];
    }
    &series[start..end]
}

// The same by the edition of the run's charge year: empty, too, for a year that would be answered 1.
pub fn day_part(editions: Editions, run: Run, series: &[u32], day: usize) -> &[u32]
    ensures { result.now ≡ day_part (edition_of editions (run_year run)) run series.now day }
{
    if editions::year_out(editions, run_year(run)) {
        return &series[0..0];
    }
    run_part(run, series, day)
}
