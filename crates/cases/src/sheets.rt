// The window sheet. Records:
//   W  year (16 bits), level, room (at most 64), count (16 bits), and as many seasons (from 0) and quarters (from 0), a
//      byte each: the quarters are chosen and written into the first `room` of 64 bytes that hold 170. Prints the
//      number, then all 64 bytes.
//   R  length (at most 64) and as many bytes: they are read as a sheet. Prints the number, year, level and each set
//      quarter as season (from 1) and quarter (from 0).
// tests/sheet_cases.py makes them, and what must come of them.
use super::input::ROOM;
use super::session::Session;
use sheet::{ReadRefusal, Sheet, WriteRefusal};
use std::io;
use std::io::Read;

fn write_number(written: Result<(), WriteRefusal>) -> u8 {
    match written {
        Ok(()) => 0,
        Err(WriteRefusal::Short) => 14,
        Err(WriteRefusal::YearOut) => 1,
        Err(WriteRefusal::LevelOut) => 2,
        Err(WriteRefusal::Malformed) => 12,
    }
}

fn read_number(read: Result<Sheet, ReadRefusal>) -> u8 {
    match read {
        Ok(_) => 0,
        Err(ReadRefusal::YearOut) => 1,
        Err(ReadRefusal::LevelOut) => 2,
        Err(ReadRefusal::Malformed) => 12,
    }
}

impl<P: Print, R: Read> Session<'_, P, R> {
    // The quarters that the input chooses, each as a season and a quarter, both from 0: all windows stand season by
    // season, 96 each.
    fn next_windows(&mut self, count: u16) -> io::Result<[bool; sheet::WINDOW_PLACES]> {
        let mut windows = [false; sheet::WINDOW_PLACES];
        for _ in 0..count {
            let season = usize::from(self.byte()?.min(3));
            let quarter = usize::from(self.byte()?.min(95));
            windows[answers::DAY_QUARTERS * season + quarter] = true;
        }
        Ok(windows)
    }

    // W: a meaning is written.
    pub(crate) fn one_writing(&mut self) -> io::Result<()> {
        let year = self.two()?;
        let level = self.byte()?;
        let room = self.room()?;
        let count = self.two()?;
        let windows = self.next_windows(count)?;
        let meaning = Sheet {
            year,
            level,
            windows,
        };
        let mut buffer = [170; ROOM];
        let written = sheet_write::write(self.editions, meaning, &mut buffer[..room]);
        self.letter(b'W')?;
        self.next(write_number(written))?;
        self.hexadecimal(&buffer)?;
        self.end_line()
    }

    fn write_windows(&self, windows: &[bool; sheet::WINDOW_PLACES]) -> io::Result<()> {
        for (place, &set) in windows.iter().enumerate() {
            if set {
                self.next(place / 96 + 1)?;
                self.letter(b':')?;
                self.rt.print(place % 96)?;
            }
        }
        Ok(())
    }

    // R: bytes are read as a sheet.
    pub(crate) fn one_reading(&mut self) -> io::Result<()> {
        let n = self.room()?;
        let bytes = self.bytes(n)?;
        let read = sheet_read::read(self.editions, &bytes[..n]);
        let meaning = sheet_read::sheet_shown(read);
        self.letter(b'R')?;
        self.next(read_number(read))?;
        self.next(meaning.year)?;
        self.next(meaning.level)?;
        self.write_windows(&meaning.windows)?;
        self.end_line()
    }
}
