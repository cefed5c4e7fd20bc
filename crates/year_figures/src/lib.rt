// A charge year's figures: which quarters of a day count, as a lent row, and the pass over a whole year, month by
// month. It meets specs/Counts and specs/Year. Rules 6.1 to 6.5.
// Main theorem: by its row a position of a day counts exactly when the day carries windows and the quarter is set in
// the windows of the day's season (`row_counts`, proofs/Rows).
#![tactic(auto)]

ghost use Rattle.std.specs.Prelude.{◌≡◌, ◌+◌, ◌<◌};
ghost use Rattle.dates.specs.Dates.{most_days, season_of};
ghost use Rattle.year_figures.specs.Counts.{season_row, day_row};
ghost use Rattle.year_figures.specs.Year.{year_figures};

use day_figures::TakingRefusal;
use readings::Run;
use tariff::Figures;

// What a year's series is refused for: 4, another length than the year's.
#[derive(Clone, Copy, PartialEq, Eq)]
pub struct WrongLength;

// A month of the year is never answered 13, so that what it is refused for is the length of the series.
impl From<TakingRefusal> for WrongLength {
    fn from(_refusal: TakingRefusal) -> WrongLength {
        WrongLength
    }
}

// The windows of the season of day d, from 0, as a row whose first flag is quarter 0's.
fn season_row(year: u16, d: u16, windows: &[bool; sheet::WINDOW_PLACES]) -> &[bool]
    requires { d < most_days }
    ensures { result.now ≡ season_row windows.now (season_of year (d + 1)) }
{
    let all = &windows[..];
    let end = answers::DAY_QUARTERS * dates::season(year, d + 1) as usize;
    let start = end - answers::DAY_QUARTERS;
    &all[start..end]
}

// The quarters that count on day d, from 0: those of its season's windows where the day carries windows, else an empty
// row. Flag d of `carrying` is day d's. The season's row is cut out on every day: the flag then only chooses between
// two rows, and no jump has to be guessed.
pub fn day_row<'a>(
    year: u16,
    d: u16,
    carrying: &'a [bool; dates::MOST_DAYS],
    windows: &'a [bool; sheet::WINDOW_PLACES],
) -> &'a [bool]
    ensures { result.now ≡ day_row year carrying.now windows.now d }
{
    let Some(carries) = carrying.get(d as usize) else {
        return &[];
    };
    let row = season_row(year, d, windows);
    if *carries { row } else { &[] }
}

// The figures of a year's series, or 4 for a series of another length. Month by month, since all days of a month have
// the windows of one season. The year's two Sundays of the clock change are worked out once, and handed on.
pub fn year_figures<'a>(
    year: u16,
    carrying: &'a [bool; dates::MOST_DAYS],
    windows: &'a [bool; sheet::WINDOW_PLACES],
    series: &[u32],
) -> Result<Figures, WrongLength>
    ensures { result ≡ year_figures year carrying.now windows.now series.now }
{
    let all = &carrying[..];
    let mut figures = tariff::NO_FIGURES;
    let days = dates::year_days(year);
    let change = readings::change_of(Run::Year(year));
    // Kept: the loop goes on by months, and how long a month is its first day tells.
    let mut d = 0;
    while d < days {
        let next = d + 1 + dates::month_left(year, d + 1);
        let start = d as usize;
        let end = next as usize;
        let flags = &all[start..end];
        let row = season_row(year, d, windows);
        figures = day_figures::take_days(figures, days, change, d, flags, row, series)?;
        d = next;
    }
    Ok(figures)
}
