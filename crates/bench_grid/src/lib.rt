// The module's long calls on a grid series for a caller in Rust or C, as the benchmark makes them: windows, whole and
// by days, and the choice of quarters alone. Each is the called function under today's list, and no more; its promise
// is that function's, through the same definitions. It meets `grid`, specs/Answers (whole), and specs/Days (by days),
// each answer laid out by `answer_numbers`, specs/Numbers; and `windows`, specs/Chosen (the choice).
#![tactic(auto)]

ghost use Rattle.std.specs.Prelude.{◌≡◌, length};
ghost use Rattle.periods.specs.Period.{period_days};
ghost use Rattle.windows.specs.Chosen.{chosen_of};
ghost use Rattle.grid.specs.Answers.{windows_answer, windows_buffer};
ghost use Rattle.answer_numbers.specs.Numbers.{numbers_of};
ghost use Rattle.bench_grid.specs.Days.{grid_after_days, grid_days_answer, grid_days_buffer};
ghost use Rattle.answers.specs.Edition.{today};
ghost use Rattle.editions.specs.Editions.{todays, edition_of};

use answer_numbers::Numbers;
use grid_days::Grid;
use readings::Run;

// The choice of four seasons' quarters alone: the step that cuts a season to forty.
#[unsafe(no_mangle)]
pub extern "C" fn bench_chosen(
    peak: u32,
    curves: &[[u32; answers::DAY_QUARTERS]; sheet::SEASONS],
    out: &mut [[bool; answers::DAY_QUARTERS]; sheet::SEASONS],
)
    ensures { out.new ≡ chosen_of today peak curves.now }
{
    *out = windows::chosen(editions::today(), peak, curves);
}

// The windows of a whole grid series.
#[unsafe(no_mangle)]
pub extern "C" fn bench_windows(year: u16, level: u8, series: &[u32], out: &mut [u8]) -> Numbers
    ensures { (result ≡ numbers_of (windows_answer (edition_of todays year) year level series.now (length out.old)))
        × (out.new ≡ windows_buffer (edition_of todays year) year level series.now out.old) }
{
    grid_numbers::of_answer(grid::windows(editions::todays(), year, level, series, out))
}

// The grid after every day of a series, given one by one. The loop counts days from 0, `run_part` from 1.
// Kept: a range of days, as in bench_customer: a day's part is asked for by its number, and days differ in length.
fn all_grid_days(year: u16, level: u8, series: &[u32]) -> Grid
    ensures { result ≡ grid_after_days year level series.now (period_days year) }
{
    let mut state = Grid::open(editions::todays(), year, level).grid;
    for d in 0..periods::period_days(year) {
        let day = readings::run_part(Run::Period(year), series, d as usize + 1);
        state = state.day(day).grid;
    }
    state
}

// The windows of a grid series that is given day by day.
#[unsafe(no_mangle)]
pub extern "C" fn bench_grid_days(year: u16, level: u8, series: &[u32], out: &mut [u8]) -> Numbers
    ensures { (result ≡ numbers_of (grid_days_answer year level series.now (length out.old)))
        × (out.new ≡ grid_days_buffer year level series.now out.old) }
{
    grid_numbers::of_answer(all_grid_days(year, level, series).close(out))
}
