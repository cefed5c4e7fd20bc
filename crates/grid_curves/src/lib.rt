// The four curves of a grid's series: the highest reading of a season in a quarter, over all days (Rule 4.2). It meets
// specs/Curves; how it takes four days at once is in specs/Four. The curves are one array, one after the other: quarter
// q, from 0, of season s, from 1, at place 96 (s - 1) + q.
// Main theorem: the highest value of the curves is the period's peak, since every reading goes into one of them
// (`peak_curves`, proofs/Curves).
#![tactic(auto)]

ghost use Rattle.std.specs.Prelude.{◌≡◌, ℕ, ◌<◌, ◌≤◌, ◌+◌, min, length};
ghost use Rattle.periods.specs.Period.{period_days, period_season};
ghost use Rattle.readings.specs.declared.Run.TheVariants.{Period};
ghost use Rattle.answers.specs.Ruling.{day_quarters};
ghost use Rattle.readings.specs.Runs.{change_of, day_len};
ghost use Rattle.grid_curves.specs.Curves.{flat_curves, merged, LaidTo};
ghost use Rattle.grid_curves.specs.Four.{four_days, overlaid, Without};

use readings::{Change, Run};

// How many readings four usual days have.
const FOUR_DAYS: usize = 4 * answers::DAY_QUARTERS;

// The number of winter; seasons count from 1.
const WINTER: u8 = 1;

// A reference period, and its two Sundays of the clock change: worked out once, and handed on.
#[derive(Clone, Copy)]
struct Sundays {
    year: u16,
    change: Change,
    ghost own: { change ≡ change_of (Period year) },
}

// The season, from 1, of day d, from 0, of a period. Days behind every period lie in winter.
fn season_of(year: u16, d: u16) -> u8
    ensures { result ≡ period_season year (d + 1) }
{
    match d.checked_add(1) {
        Some(k) => periods::period_season(year, k),
        None => WINTER,
    }
}

// Lays the readings of day d, from 0, which has `len` of them, over the curve of its season, from 1: every day counts,
// free or not, and both readings of a quarter that comes twice. Of the last readings some may be left out.
fn lay(
    curves: &mut [u32; sheet::WINDOW_PLACES],
    year: u16,
    d: u16,
    season: u8,
    len: usize,
    day: &[u32],
)
    requires { (len ≡ day_len (Period year) d) × (length day.now ≤ len) × (season ≡ period_season year (d + 1)) }
    ensures { curves.new ≡ merged year curves.old d day.now }
{
    let base = answers::DAY_QUARTERS * (season as usize - 1);
    for (p, reading) in day.iter().enumerate() {
        let at = base + readings::quarter_in(len, p);
        curves[at] = curves[at].max(*reading);
    }
}

// Lays any readings over the curves as day d, from 0, of a period: those behind the day's last are not read.
pub fn lay_day(curves: &mut [u32; sheet::WINDOW_PLACES], year: u16, d: u16, day: &[u32])
    ensures { curves.new ≡ merged year curves.old d day.now }
{
    let len = readings::day_len(Run::Period(year), d);
    let n = day.len().min(len);
    lay(&mut *curves, year, d, season_of(year, d), len, &day[..n]);
}

// Lays four days of one season, from 1, which stand one after the other, over the curves: a curve's value is read and
// written once for all four.
// Kept: five stretches are read at one place q; four zips in a row are no plainer.
fn lay_four(curves: &mut [u32; sheet::WINDOW_PLACES], season: u8, four: &[u32])
    requires { (length four.now ≡ four_days) × (1 ≤ season) × (season ≤ 4) }
    ensures { curves.new ≡ overlaid season curves.old four.now }
{
    let base = answers::DAY_QUARTERS * (season as usize - 1);
    for q in 0..answers::DAY_QUARTERS {
        let early = four[q].max(four[answers::DAY_QUARTERS + q]);
        let late = four[2 * answers::DAY_QUARTERS + q].max(four[3 * answers::DAY_QUARTERS + q]);
        let at = base + q;
        curves[at] = curves[at].max(early.max(late));
    }
}

// The first of the days from `from` on that is this Sunday, or `end` where none before it is.
fn stop_at(sunday: u16, from: u16, end: u16) -> u16
    requires { from ≤ end }
    ensures { Without sunday from end result }
{
    if (from <= sunday) & (sunday < end) {
        sunday
    } else {
        end
    }
}

// Lays days of a season with 96 readings each over the curves, four at once, from day `from`, from 0, on: as long as
// there are four before `end`, and readings for them. Hands back how many days of the period are laid then. (Where the
// first of them stands is asked once, and four days on stand 384 readings on.)
// Kept: a `while`, since the month or the series ends it, and the day that it came to is handed back.
fn lay_fours(
    curves: &mut [u32; sheet::WINDOW_PLACES],
    sundays: Sundays,
    season: u8,
    end: u16,
    from: u16,
    series: &[u32],
) -> u16
    requires { let year = sundays.year in (from ≤ end) × (end ≤ period_days year)
        × ((k : ℕ) → from ≤ k → k < end → (period_season year (k + 1) ≡ season) × (day_len (Period year) k ≡ day_quarters))
        × (curves.old ≡ flat_curves year series.now from) }
    ensures { LaidTo sundays.year series.now from end result curves.new }
{
    let mut d = from;
    let mut at = readings::span_by(sundays.change, from).start;
    while (d + 4 <= end) & (at + FOUR_DAYS <= series.len()) {
        lay_four(&mut *curves, season, &series[at..at + FOUR_DAYS]);
        d += 4;
        at += FOUR_DAYS;
    }
    d
}

// Lays day d, from 0, over the curve of its season, from 1, as far as a series holds the day.
fn lay_held(
    curves: &mut [u32; sheet::WINDOW_PLACES],
    sundays: Sundays,
    season: u8,
    d: u16,
    series: &[u32],
)
    requires { (d < period_days sundays.year) × (season ≡ period_season sundays.year (d + 1))
        × (curves.old ≡ flat_curves sundays.year series.now d) }
    ensures { curves.new ≡ flat_curves sundays.year series.now (d + 1) }
{
    let span = readings::span_by(sundays.change, d);
    let from = span.start.min(series.len());
    let to = (span.start + span.len).min(series.len());
    lay(
        &mut *curves,
        sundays.year,
        d,
        season,
        span.len,
        &series[from..to],
    );
}

// Lays the days from day `from`, from 0, to the end of their month over the curves: they lie in one season. Those up to
// a Sunday of the clock change come four at once, and one by one those that are left over, the Sunday and the days
// behind it. Hands back how many days of the period are laid then.
fn lay_month(
    curves: &mut [u32; sheet::WINDOW_PLACES],
    sundays: Sundays,
    from: u16,
    series: &[u32],
) -> u16
    requires { (from < period_days sundays.year) × (curves.old ≡ flat_curves sundays.year series.now from) }
    ensures { LaidTo sundays.year series.now (from + 1) (period_days sundays.year) result curves.new }
{
    let Sundays { year, change } = sundays;
    let season = periods::period_season(year, from + 1);
    let end = from + 1 + periods::period_left(year, from + 1);
    let usual = stop_at(change.long, from, stop_at(change.short, from, end));
    let laid = lay_fours(&mut *curves, sundays, season, usual, from, series);
    for d in laid..end {
        lay_held(&mut *curves, sundays, season, d, series);
    }
    end
}

// The curves of the period's days in any series, month by month: one pass, over one array. Behind the last reading
// there is 0. The period's two Sundays of the clock change are worked out once, and handed on.
// Kept: a `while`, since how many days a month's step takes is known only once it is done.
pub fn collect(year: u16, series: &[u32]) -> [u32; sheet::WINDOW_PLACES]
    ensures { result ≡ flat_curves year series.now (period_days year) }
{
    let days = periods::period_days(year);
    let sundays = Sundays {
        year,
        change: readings::change_of(Run::Period(year)),
    };
    let mut curves = [0; sheet::WINDOW_PLACES];
    let mut d = 0;
    while d < days {
        d = lay_month(&mut curves, sundays, d, series);
    }
    curves
}
