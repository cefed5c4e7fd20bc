// Which days of a year carry windows, and why the others are free (Rules 3.3 to 3.5). It meets specs/Answer and
// `day_kinds`, specs/Kinds; how listed days are marked inside is in specs/Marks. Days count from 1, weekdays from 0.
// Main theorem: whatever year, list and day are given, each number is answered exactly when its row of Rule 8.1 says,
// and nothing else meets the contract (`exactly`, `kind_only`, proofs/Answers).
#![tactic(auto)]

ghost use Rattle.std.specs.Prelude.{◌≡◌, ◌≤◌, ◌<◌};
ghost use Rattle.dates.specs.Dates.{most_days};
ghost use Rattle.editions.specs.Editions.{edition_of};
ghost use Rattle.day_kinds.specs.Kinds.{christmas, free, candidate, bridge, kind_by, window_days};
ghost use Rattle.calendar.specs.Answer.{said_of_day, day_out, calendar_answer};
ghost use Rattle.calendar.specs.Marks.{mark_places, last_mark, mark_place, marked, Marks};

use day_kinds::DayKind;
use editions::Editions;

// The places, from 0, that mark listed days: place d for day d, from 0 to 367, and a last one for days that no year
// has.
const MARK_PLACES: usize = 369;

const LAST_MARK: usize = 368;

// Weekdays, from 0.
const MONDAY: u8 = 0;

const FRIDAY: u8 = 4;

const SATURDAY: u8 = 5;

// Why a day has no kind: the answers 1, 3, 13.
#[derive(Clone, Copy, PartialEq, Eq)]
pub enum DayRefusal {
    YearOut,
    BadList,
    DayOut,
}

// The place that marks a day.
fn place_of(day: u16) -> usize
    ensures { (result ≡ mark_place day) × (result < mark_places) }
{
    usize::from(day).min(LAST_MARK)
}

// The listed days, marked once, so that no day searches the list.
fn marks(holidays: &[u16]) -> [bool; MARK_PLACES]
    ensures { Marks holidays.now result }
{
    let mut out = [false; MARK_PLACES];
    for day in holidays {
        out[place_of(*day)] = true;
    }
    out
}

// 24 December to 1 January: the last eight days of a year and its first.
fn in_christmas(year: u16, day: u16) -> bool
    ensures { result ≡ christmas year day }
{
    (day <= 1) | (dates::year_days(year) - 7 <= day)
}

// Is a day free by another ground than that of bridge days?
fn is_free(year: u16, marks: &[bool; MARK_PLACES], day: u16) -> bool
    requires { day < last_mark }
    ensures { result ≡ free year (marked marks.now) day }
{
    if SATURDAY <= dates::weekday(year, day) {
        return true;
    }
    if marks[day as usize] {
        return true;
    }
    in_christmas(year, day)
}

// Is a day a candidate for a bridge day: the weekday `on`, with `beside` on the list, and not free already?
fn is_candidate(year: u16, marks: &[bool; MARK_PLACES], on: u8, beside: u16, day: u16) -> bool
    requires { (beside < last_mark) × (day < last_mark) }
    ensures { result ≡ candidate year (marked marks.now) on beside day }
{
    if dates::weekday(year, day) != on {
        return false;
    }
    if marks[beside as usize] {
        return !is_free(year, marks, day);
    }
    false
}

// Is a day the bridge day of its week: a Monday that is a candidate, or a Friday that is one where its Monday is none?
fn is_bridge(year: u16, marks: &[bool; MARK_PLACES], day: u16) -> bool
    requires { (1 ≤ day) × (day ≤ most_days) }
    ensures { result ≡ bridge year (marked marks.now) day }
{
    if is_candidate(year, marks, MONDAY, day + 1, day) {
        return true;
    }
    if is_candidate(year, marks, FRIDAY, day - 1, day) {
        // the Monday of its week, and day 0 where that lies in the year before
        let first = day.saturating_sub(4);
        return !is_candidate(year, marks, MONDAY, first + 1, first);
    }
    false
}

// Whether a day carries windows by the marks and, where not, why it is free.
fn kind(year: u16, marks: &[bool; MARK_PLACES], day: u16) -> DayKind
    requires { (1 ≤ day) × (day ≤ most_days) }
    ensures { result ≡ kind_by year (marked marks.now) day }
{
    if SATURDAY <= dates::weekday(year, day) {
        return DayKind::Weekend;
    }
    if marks[day as usize] {
        return DayKind::Listed;
    }
    if in_christmas(year, day) {
        return DayKind::Christmas;
    }
    if is_bridge(year, marks, day) {
        return DayKind::Bridge;
    }
    DayKind::Windows
}

// Which days of any year carry windows by any list, for a loop over a year's days: place k, from 0, is day k + 1.
pub fn window_days(year: u16, holidays: &[u16]) -> [bool; dates::MOST_DAYS]
    ensures { result ≡ window_days year holidays.now }
{
    let m = marks(holidays);
    let mut out = [false; dates::MOST_DAYS];
    for (k, carries) in out.iter_mut().enumerate() {
        *carries = kind(year, &m, (k + 1) as u16) == DayKind::Windows;
    }
    out
}

// Does a year not have a day (answer 13)?
fn day_out(year: u16, day: u16) -> bool
    ensures { result ≡ day_out year day }
{
    (day < 1) | (dates::year_days(year) < day)
}

// Of which kind is a day, from 1, of a charge year? Refuses 1, 3, 13 in this order.
pub fn day_kind(
    editions: Editions,
    year: u16,
    holidays: &[u16],
    day: u16,
) -> Result<DayKind, DayRefusal>
    ensures { said_of_day result ≡ calendar_answer (edition_of editions year) year holidays.now day }
{
    if editions::year_out(editions, year) {
        return Err(DayRefusal::YearOut);
    }
    if holidays::bad_holidays(year, holidays) {
        return Err(DayRefusal::BadList);
    }
    if day_out(year, day) {
        return Err(DayRefusal::DayOut);
    }
    let m = marks(holidays);
    Ok(kind(year, &m, day))
}
