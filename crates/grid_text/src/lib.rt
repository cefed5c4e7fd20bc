// What the window program prints once the machine of room `grid_file` has ended: the lines of the windows, or that of a
// refusal. It meets specs/Text; `lines`, specs/Text, says how a text is put into a lent buffer. Rule 10.6.
#![tactic(auto)]

ghost use Rattle.std.specs.Prelude.{[], ◌∷◌};
ghost use Rattle.answers.specs.Said.{bad_place};
ghost use Rattle.texts.specs.Text.{Put};
ghost use Rattle.lines.specs.Figures.{line_figures, refused_line};
ghost use Rattle.grid_file.specs.GridMachine.{closed_grid};
ghost use Rattle.grid_text.specs.Text.{window_lines, grid_text};

use answers::Place;
use fields::Stage;
use grid_days::Grid;
use grid_file::GridFile;

// A refusal's line: a number alone; or 5 with its place, the day of the period from 1 and the position in the day from
// 0.
fn refused(number: u64, out: &mut [u8]) -> usize
    ensures { Put 0 (refused_line (number ∷ [])) out.old out.new result }
{
    let figures = [number];
    lines::refused_text(&figures, out)
}

fn refused_at(place: Place, out: &mut [u8]) -> usize
    ensures { Put 0 (refused_line (line_figures (bad_place place))) out.old out.new result }
{
    let figures = [5, u64::from(place.day), u64::from(place.position)];
    lines::refused_text(&figures, out)
}

// What is printed once all days are in: the lines of the windows, or what closing refuses.
fn closed(grid: Grid, out: &mut [u8]) -> usize
    ensures { Put 0 (window_lines grid.edition (closed_grid grid)) out.old out.new result }
{
    let edition = grid.edition;
    let mut bytes = [0u8; sheet::SHEET_SIZE];
    let done = grid.close(&mut bytes);
    if done.is_err() {
        return refused(grid_numbers::of_answer(done).number, out);
    }
    let meaning = sheet_read::read_by(edition, &bytes).unwrap();
    window_lines::windows_text(meaning.year, meaning.level, &meaning.windows, out)
}

// What the window program prints, at the start of a lent buffer, all or nothing; 13 while the machine goes on.
pub fn text(file: GridFile, out: &mut [u8]) -> usize
    ensures { Put 0 (grid_text file) out.old out.new result }
{
    match file.stage {
        Stage::Going => refused(13, out),
        Stage::Refused(number) => refused(u64::from(number), out),
        Stage::BadReading(place) => refused_at(place, out),
        Stage::Complete => closed(file.series.grid, out),
    }
}
