// The grid file: its header (room `grid_head`), then the readings of the reference period. The machine that the window
// program drives is that of room `file_machine`, over the grid's series: `want` says how many bytes come next, and
// `feed` takes them, fewer where the file has ended. It meets specs/GridMachine, and `fields`, specs/Machine; room
// `grid_text` makes the text that is printed. Rules 10.2, 10.4 and 10.5.
// Main theorem: driven over any bytes, the machine gives what the file's bytes are answered, and that is printed (room
// `printed_proofs`, specs/Printed).
#![tactic(auto)]

ghost use Rattle.std.specs.Prelude.{◌≡◌};
ghost use Rattle.grid.specs.Answers.{said_of_grid};
ghost use Rattle.fields.specs.Stages.{day_stage};
ghost use Rattle.grid_file.specs.GridMachine.{grid_kind};
ghost use Rattle.grid_file.specs.GridLaws.{grid_laws};

use editions::Editions;
use fields::{Span, Stage};
use file_machine::{File, Series};
use grid::GridRefusal;
use grid_days::Grid;
use readings::Run;

// The grid's series, as its file opens it and fills it.
#[derive(Clone, Copy)]
pub struct GridSeries {
    pub grid: Grid,
}

// A grid file that is being read.
pub type GridFile = File<GridSeries, { grid_head::GRID_HEAD_MOST }>;

// Where the machine stands after a day: it goes on where the day is taken.
// Kept: customer_file has another for a decision: each takes its own room's answer apart, by its own cases.
fn stage_of(answer: Result<(), GridRefusal>) -> Stage
    ensures { result ≡ day_stage (said_of_grid answer) }
{
    match answer {
        Ok(()) => Stage::Going,
        Err(refusal) => match refusal {
            GridRefusal::BadReading(place) => Stage::BadReading(place),
            _ => Stage::Refused(grid_numbers::of_answer(answer).number as u8),
        },
    }
}

impl Series<{ grid_head::GRID_HEAD_MOST }> for GridSeries {
    ghost kind = { grid_kind };

    ghost laws = { grid_laws };

    fn span_of(head: &[u8], k: usize) -> Span {
        grid_head::span_of(head, k)
    }

    fn refusal(editions: Editions, head: &[u8], k: usize) -> u8 {
        grid_head::refusal(editions, head, k)
    }

    // A header of zeros opens no series.
    fn fresh(editions: Editions) -> GridSeries {
        let head = [0; grid_head::GRID_HEAD_MOST];
        GridSeries {
            grid: grid_head::opened(editions, &head),
        }
    }

    fn opened(self, editions: Editions, head: &[u8], k: usize) -> GridSeries {
        GridSeries {
            grid: grid_head::opened(editions, head),
        }
    }

    fn run(self) -> Run {
        Run::Period(self.grid.year)
    }

    fn seen(self) -> u16 {
        self.grid.seen
    }

    fn day(self, day: &[u32]) -> (Stage, GridSeries) {
        let step = self.grid.day(day);
        (stage_of(step.answer), GridSeries { grid: step.grid })
    }
}
