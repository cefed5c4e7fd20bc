// The high-load windows of a whole grid series, as a sheet. It meets specs/Answers. Rules 4.1 to 4.7 and 8.2; the same
// day by day is room `grid_days`.
// Main theorem: each number is answered exactly when its row holds (`windows_exactly`, proofs/Exactly).
#![tactic(auto)]

ghost use Rattle.std.specs.Prelude.{◌≡◌, List, ℕ, ◌<◌, length};
ghost use Rattle.answers.specs.Ruling.{day_quarters};
ghost use Rattle.editions.specs.Editions.{edition_of};
ghost use Rattle.readings.specs.Legal.{highest_of};
ghost use Rattle.legal_readings.specs.Answers.{said_of_unfit};
ghost use Rattle.sheet.specs.Answers.{said_of_write};
ghost use Rattle.sheet.specs.Windows.{seasons, flat_windows};
ghost use Rattle.grid.specs.Answers.{said_of_grid_refusal, said_of_grid, Gives, curve_of, curves_of, grid_open_answer, finish_answer, finished, windows_answer, windows_buffer};

use answers::{Edition, Place};
use editions::Editions;
use legal_readings::Unfit;
use readings::Run;
use sheet::{Sheet, WriteRefusal};

// What a call refuses: 14, 1, 2, 4, 5 with its place, 7, 12, 13.
#[derive(Clone, Copy, PartialEq, Eq)]
pub enum GridRefusal {
    Short,
    YearOut,
    LevelOut,
    WrongLength,
    BadReading(Place),
    NoPeak,
    Malformed,
    DayOut,
}

// What refuses the sheet of the windows refuses the series.
impl From<WriteRefusal> for GridRefusal {
    ghost from_gives = { λ written refusal. said_of_grid_refusal refusal ≡ said_of_write written };

    fn from(refusal: WriteRefusal) -> GridRefusal {
        match refusal {
            WriteRefusal::Short => GridRefusal::Short,
            WriteRefusal::YearOut => GridRefusal::YearOut,
            WriteRefusal::LevelOut => GridRefusal::LevelOut,
            WriteRefusal::Malformed => GridRefusal::Malformed,
        }
    }
}

// A day that is not the next of the period is refused by the same number.
impl From<Unfit> for GridRefusal {
    ghost from_gives = { λ unfit refusal. said_of_grid_refusal refusal ≡ said_of_unfit unfit };

    fn from(unfit: Unfit) -> GridRefusal {
        match unfit {
            Unfit::DayOut => GridRefusal::DayOut,
            Unfit::WrongLength => GridRefusal::WrongLength,
            Unfit::BadReading(place) => GridRefusal::BadReading(place),
        }
    }
}

// Writes the curve of season s, from 0, out of the flat curves, one array that has the four one after the other. (It
// is written where it is to stand: so the compiler sees that the four together are the flat array once more, and makes
// no copy where that is not needed any more.)
// Kept: a loop, since `copy_from_slice` makes that copy: 1552 bytes of stack more.
fn write_curve(out: &mut [u32; answers::DAY_QUARTERS], flat: &[u32; sheet::WINDOW_PLACES], s: usize)
    requires { (length out.old ≡ day_quarters) × (s < seasons) }
    ensures { out.new ≡ curve_of flat.now s }
{
    for (q, value) in out.iter_mut().enumerate() {
        *value = flat[answers::DAY_QUARTERS * s + q];
    }
}

// The four curves out of the flat ones: by season and by quarter, both from 0.
fn by_season(flat: &[u32; sheet::WINDOW_PLACES]) -> [[u32; answers::DAY_QUARTERS]; sheet::SEASONS]
    ensures { result ≡ curves_of flat.now }
{
    let mut out = [[0; answers::DAY_QUARTERS]; sheet::SEASONS];
    for (s, curve) in out.iter_mut().enumerate() {
        write_curve(curve, flat, s);
    }
    out
}

// The chosen quarters of four seasons, one season after the other, as a sheet holds them.
fn flat_windows(
    chosen: [[bool; answers::DAY_QUARTERS]; sheet::SEASONS],
) -> [bool; sheet::WINDOW_PLACES]
    ensures { result ≡ flat_windows chosen }
{
    let mut out = [false; sheet::WINDOW_PLACES];
    for (p, set) in out.iter_mut().enumerate() {
        *set = chosen[p / answers::DAY_QUARTERS][p % answers::DAY_QUARTERS];
    }
    out
}

// What four curves are answered whose highest value is known: 7 for a peak of zero, else the windows are chosen and
// their sheet is written.
fn finish_by(
    edition: Edition,
    year: u16,
    level: u8,
    curves: &[[u32; answers::DAY_QUARTERS]; sheet::SEASONS],
    peak: u32,
    out: &mut [u8],
) -> Result<(), GridRefusal>
    ensures { (flat : List ℕ) → curves.now ≡ curves_of flat → peak ≡ highest_of flat
        → Gives result (finish_answer edition year level flat (length out.old))
        out.new (finished edition year level flat out.old) }
{
    if peak == 0 {
        return Err(GridRefusal::NoPeak);
    }
    let windows = flat_windows(windows::chosen(edition, peak, curves));
    let sheet = Sheet {
        year,
        level,
        windows,
    };
    sheet_write::write_by(edition, sheet, out)?;
    Ok(())
}

// What flat curves are answered by an edition once all days are in: 7 for a peak of zero, else the sheet of their
// windows in a lent buffer. Any edition and any curves have an answer.
pub fn finish(
    edition: Edition,
    year: u16,
    level: u8,
    curves: &[u32; sheet::WINDOW_PLACES],
    out: &mut [u8],
) -> Result<(), GridRefusal>
    ensures { Gives result (finish_answer edition year level curves.now (length out.old))
        out.new (finished edition year level curves.now out.old) }
{
    let seasons = by_season(curves);
    finish_by(edition, year, level, &seasons, peaks::highest(curves), out)
}

// What refuses a series before its first reading: 1, then 2. Any edition, year and level have an answer.
pub fn opens(edition: Edition, year: u16, level: u8) -> Result<(), GridRefusal>
    ensures { said_of_grid result ≡ grid_open_answer edition year level }
{
    if answers::lacks_year(edition, year) {
        return Err(GridRefusal::YearOut);
    }
    if answers::level_out(level) {
        return Err(GridRefusal::LevelOut);
    }
    Ok(())
}

// The windows of a whole series by an edition, as a sheet in a lent buffer. Refuses 14, 1, 2, 4, 5, 7 in this order,
// and then changes no byte.
fn windows_by(
    edition: Edition,
    year: u16,
    level: u8,
    series: &[u32],
    out: &mut [u8],
) -> Result<(), GridRefusal>
    ensures { Gives result (windows_answer edition year level series.now (length out.old))
        out.new (windows_buffer edition year level series.now out.old) }
{
    if out.len() < sheet::SHEET_SIZE {
        return Err(GridRefusal::Short);
    }
    opens(edition, year, level)?;
    let run = Run::Period(year);
    if series.len() != readings::run_readings(run) {
        return Err(GridRefusal::WrongLength);
    }
    let curves = grid_curves::collect(year, series);
    let peak = peaks::highest(&curves);
    if answers::GRID_MOST < peak {
        let place = legal_readings::first_illegal(run, series, answers::GRID_MOST);
        return Err(GridRefusal::BadReading(place));
    }
    let seasons = by_season(&curves);
    finish_by(edition, year, level, &seasons, peak, out)
}

// The windows of a whole series by the edition of its year, as a sheet in a lent buffer. Refuses 14, 1, 2, 4, 5, 7 in
// this order, and then changes no byte.
pub fn windows(
    editions: Editions,
    year: u16,
    level: u8,
    series: &[u32],
    out: &mut [u8],
) -> Result<(), GridRefusal>
    ensures { Gives result (windows_answer (edition_of editions year) year level series.now (length out.old))
        out.new (windows_buffer (edition_of editions year) year level series.now out.old) }
{
    windows_by(editions::pick(editions, year), year, level, series, out)
}
