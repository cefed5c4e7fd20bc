// A grid series that is given day by day: opening, one day after the other, closing. It meets specs/Days. Rules 9.3 to
// 9.6. The days taken count from 0, the day that 5 names from 1.
// Main theorem: days given one by one, refused ones among them, close as the whole series of the taken days, sheet
// bytes included (`days_whole`, proofs/Whole).
#![tactic(auto)]

ghost use Rattle.std.specs.Prelude.{◌≡◌, length};
ghost use Rattle.answers.specs.Ruling.{grid_most};
ghost use Rattle.editions.specs.Editions.{edition_of};
ghost use Rattle.readings.specs.declared.Run.TheVariants.{Period};
ghost use Rattle.readings.specs.Days.{next_answer};
ghost use Rattle.grid.specs.Answers.{Gives, grid_open_answer};
ghost use Rattle.grid_days.specs.Days.{open_grid, shut_grid, grid_day_answer, day_grid, day_curves, grid_close_answer, grid_close_buffer};

use answers::Edition;
use editions::Editions;
use grid::GridRefusal;
use readings::Run;

// A series that is given day by day: the edition of its year, the days taken so far, and the curves of their readings,
// flat.
#[derive(Clone, Copy)]
pub struct Grid {
    pub edition: Edition,
    pub year: u16,
    pub level: u8,
    pub seen: u16,
    pub curves: [u32; sheet::WINDOW_PLACES],
}

// An answer, and the next state beside it.
// Kept: a struct of its own for each series: document 01 has methods by value hand the state back beside the answer.
#[derive(Clone, Copy)]
pub struct Stepped {
    pub answer: Result<(), GridRefusal>,
    pub grid: Grid,
}

// One day more, laid over lent curves where so many days are taken: for a host that keeps the curves itself. Refuses
// 13, 4, 5 in this order, and then changes no value.
pub fn take_day(
    curves: &mut [u32; sheet::WINDOW_PLACES],
    year: u16,
    seen: u16,
    day: &[u32],
) -> Result<(), GridRefusal>
    ensures { Gives result (next_answer (Period year) grid_most seen day.now)
        curves.new (day_curves year curves.old seen day.now) }
{
    legal_readings::check_next(Run::Period(year), answers::GRID_MOST, seen, day)?;
    grid_curves::lay_day(&mut *curves, year, seen, day);
    Ok(())
}

impl Grid {
    // Opens a series by an edition. Refuses 1, 2; beside a refusal stands one fixed state, which takes no day and never
    // closes (Rule 9.5).
    fn open_by(edition: Edition, year: u16, level: u8) -> Stepped
        ensures { Gives result.answer (grid_open_answer edition year level) result.grid (open_grid edition year level) }
    {
        let answer = grid::opens(edition, year, level);
        if answer.is_err() {
            return Stepped {
                answer,
                grid: Grid::shut(),
            };
        }
        Stepped {
            answer,
            grid: Grid {
                edition,
                year,
                level,
                seen: 0,
                curves: [0; sheet::WINDOW_PLACES],
            },
        }
    }

    // Opens a series that comes day by day; the state keeps the edition of its year. Refuses 1, 2; beside a refusal
    // stands one fixed state.
    pub fn open(editions: Editions, year: u16, level: u8) -> Stepped
        ensures { let ed = edition_of editions year in Gives result.answer (grid_open_answer ed year level) result.grid (open_grid ed year level) }
    {
        Grid::open_by(editions::pick(editions, year), year, level)
    }

    // Kept: zeros and no Option: a refused opening hands back this state (Rule 9.5).
    fn shut() -> Grid
        ensures { result ≡ shut_grid }
    {
        Grid {
            edition: answers::NO_EDITION,
            year: 0,
            level: 0,
            seen: readings::SHUT_DAYS,
            curves: [0; sheet::WINDOW_PLACES],
        }
    }

    // One day more, laid over the curves of the state that is handed back. Refuses 13, 4, 5 in this order, and then
    // hands back the state as it was.
    pub fn day(self, day: &[u32]) -> Stepped
        ensures { Gives result.answer (grid_day_answer self day.now) result.grid (day_grid self day.now) }
    {
        let year = self.year;
        let seen = self.seen;
        let mut grid = self;
        let answer = take_day(&mut grid.curves, year, seen, day);
        if answer.is_ok() {
            grid.seen = seen + 1;
        }
        Stepped { answer, grid }
    }

    // The windows of the days taken, as a sheet in a lent buffer. Refuses 14, 13, 7 in this order, and then changes no
    // byte.
    pub fn close(self, out: &mut [u8]) -> Result<(), GridRefusal>
        ensures { Gives result (grid_close_answer self (length out.old))
            out.new (grid_close_buffer self out.old) }
    {
        let edition = self.edition;
        let curves = self.curves;
        if out.len() < sheet::SHEET_SIZE {
            return Err(GridRefusal::Short);
        }
        if self.seen != periods::period_days(self.year) {
            return Err(GridRefusal::DayOut);
        }
        grid::finish(edition, self.year, self.level, &curves, out)
    }
}
