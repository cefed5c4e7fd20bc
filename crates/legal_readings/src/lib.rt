// Legal readings: the first of some readings above a limit, the first illegal reading of a run, and whether a day is
// one that a run takes next (Rules 2.1, 2.2, 8.4 and 9.3). It meets specs/Legal and specs/Days of `readings`.
// Main theorem: the first illegal reading is found by its day and then by its position, in any series, and nothing is
// read past the series' end.
#![tactic(auto)]

ghost use Rattle.std.specs.Prelude.{◌≡◌, get_or, position};
ghost use Rattle.readings.specs.Legal.{illegal, highest_of, place_above, first_illegal};
ghost use Rattle.readings.specs.Days.{next_answer};
ghost use Rattle.legal_readings.specs.Answers.{said_of_next};

use answers::Place;
use readings::Run;

// Why a day is not the next that a run takes: 13, 4, 5 with its place.
#[derive(Clone, Copy, PartialEq, Eq)]
pub enum Unfit {
    DayOut,
    WrongLength,
    BadReading(Place),
}

// Is any reading above a limit? One comparison for each and no way out of the loop: less work than to find the highest.
fn any_above(readings: &[u32], limit: u32) -> bool
    ensures { result ≡ illegal limit (highest_of readings.now) }
{
    let mut any = false;
    for reading in readings {
        any |= limit < *reading;
    }
    any
}

// The place, from 0, of the first reading above a limit, by a search from the front.
fn searched(readings: &[u32], limit: u32) -> Option<usize>
    ensures { result ≡ position (illegal limit) readings.now }
{
    readings.iter().position(|reading| limit < *reading)
}

// The same, but searched for only where there is one.
pub fn first_above(readings: &[u32], limit: u32) -> Option<usize>
    ensures { result ≡ place_above limit readings.now }
{
    if !any_above(readings, limit) {
        return None;
    }
    searched(readings, limit)
}

// The reading at place i, from 0, of a series, and 0 past its end.
fn reading_at(series: &[u32], i: usize) -> u32
    ensures { result ≡ get_or series.now i 0 }
{
    series.get(i).copied().unwrap_or(0)
}

// The place of the first reading of a run above a limit: the earliest day, from 1, and on it the earliest position,
// from 0; day 0 where there is none.
// Kept: nested loops left by a label, as document 01 shapes them: a day's span is worked out once for its readings.
pub fn first_illegal(run: Run, series: &[u32], limit: u32) -> Place
    ensures { result ≡ first_illegal run limit series.now }
{
    let days = readings::run_days(run);
    let change = readings::change_of(run);
    let mut day = 0;
    let mut position = 0;
    'search: for d in 0..days {
        let span = readings::span_by(change, d);
        for p in 0..span.len {
            if limit < reading_at(series, span.start + p) {
                day = d + 1;
                position = p as u16;
                break 'search;
            }
        }
    }
    Place { day, position }
}

// What a day is answered where so many days of a run are taken: 13, then 4, then 5.
pub fn check_next(run: Run, limit: u32, seen: u16, day: &[u32]) -> Result<(), Unfit>
    ensures { said_of_next result ≡ next_answer run limit seen day.now }
{
    if readings::run_days(run) <= seen {
        return Err(Unfit::DayOut);
    }
    if day.len() != readings::day_len(run, seen) {
        return Err(Unfit::WrongLength);
    }
    if let Some(first) = first_above(day, limit) {
        return Err(Unfit::BadReading(Place {
            day: seen + 1,
            position: first as u16,
        }));
    }
    Ok(())
}
