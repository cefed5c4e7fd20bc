// The grid's windows, whole and by days: calls on a series (series.rt). Level and room are a byte, other numbers have
// 16 bits. Each call prints a line: its letter and a number, for 5 with day, from 1, and position in the day, from 0.
//   W  year, level, room: the whole series, with the first `room` of 64 bytes that hold 170. All 64 bytes stand behind
//      the number.
//   O  year, level: an opening, with no day before the first.
//   D  day (from 1), count: as many days of the series from that day on, until one is refused. The days taken stand
//      before the number.
//   P  place (from 0), length: that part of the series as a day.
//   L  year, day (from 1): the part of the series that is that day: how many readings, and the first and the last.
//   C  room: a closing, which leaves the state to the calls after it. All 64 bytes stand behind the number.
//   E  an operation on the list of editions (lists.rt): the calls after it go by that list, up to the record's end.
// tests/grid_records.py makes them, and what must come of them, for grid_cases.py, sunday_cases.py, edition_cases.py
// and edition_series.py beside it.
use super::input::ROOM;
use super::series::Taker;
use super::session::Session;
use answer_numbers::Numbers;
use grid::GridRefusal;
use grid_days::Grid;
use readings::Run;
use std::io;
use std::io::Read;

impl Taker for Grid {
    type Answer = Result<(), GridRefusal>;

    fn numbers(answer: Result<(), GridRefusal>) -> Numbers {
        grid_numbers::of_answer(answer)
    }

    fn is_taken(answer: Result<(), GridRefusal>) -> bool {
        answer.is_ok()
    }

    fn run(year: u16) -> Run {
        Run::Period(year)
    }

    fn year(self) -> u16 {
        self.year
    }

    fn take(self, day: &[u32]) -> (Grid, Result<(), GridRefusal>) {
        let stepped = self.day(day);
        (stepped.grid, stepped.answer)
    }

    // The first calls, up to an opening, are made on the state of a refused opening.
    fn first<P: Print, R: Read>(
        session: &mut Session<'_, P, R>,
        _series: &[u32],
    ) -> io::Result<Grid> {
        Ok(Grid::open(session.editions, 0, 0).grid)
    }

    fn own_call<P: Print, R: Read>(
        self,
        session: &mut Session<'_, P, R>,
        series: &[u32],
        kind: u8,
    ) -> io::Result<Grid> {
        match kind {
            b'W' => session.whole_grid(series, self),
            b'O' => session.open_grid(),
            _ => session.close_grid(self),
        }
    }
}

impl<P: Print, R: Read> Session<'_, P, R> {
    // What a call that was lent a buffer did.
    fn write_sheet(
        &self,
        call: u8,
        answer: Result<(), GridRefusal>,
        buffer: &[u8; ROOM],
    ) -> io::Result<()> {
        self.letter(call)?;
        self.numbers(grid_numbers::of_answer(answer))?;
        self.hexadecimal(buffer)?;
        self.end_line()
    }

    // W: the whole series. The state of the days is handed on.
    fn whole_grid(&mut self, series: &[u32], grid: Grid) -> io::Result<Grid> {
        let year = self.two()?;
        let level = self.byte()?;
        let room = self.room()?;
        let mut buffer = [170; ROOM];
        let answer = grid::windows(self.editions, year, level, series, &mut buffer[..room]);
        self.write_sheet(b'W', answer, &buffer)?;
        Ok(grid)
    }

    // O: an opening.
    fn open_grid(&mut self) -> io::Result<Grid> {
        let year = self.two()?;
        let level = self.byte()?;
        let opened = Grid::open(self.editions, year, level);
        self.answered(b'O', grid_numbers::of_answer(opened.answer))?;
        Ok(opened.grid)
    }

    // C: a closing.
    fn close_grid(&mut self, grid: Grid) -> io::Result<Grid> {
        let room = self.room()?;
        let mut buffer = [170; ROOM];
        let answer = grid.close(&mut buffer[..room]);
        self.write_sheet(b'C', answer, &buffer)?;
        Ok(grid)
    }
}
