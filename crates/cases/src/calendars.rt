// Dates and calendar. A record is its kind, a year and a day (16 bits each), a count (a byte), and as many 16-bit
// holidays. Days count from 1, weekdays from 0 (Monday), seasons from 1. Kinds:
//   Y  a whole year: its days and those of its reference period, then for days 0 to 367 the weekdays, the seasons, the
//      period's seasons and the answers, a character each
//   L  a holiday list: bad_holidays, then the answers for days 0 to 367 and the days of window_days, a character each
//   D  one day: its answer
// An answer as a character: a kind is its code, and y, h, d are the refusals 1, 3, 13.
// tests/calendar_cases.py makes them, and what must come of them by Python's datetime.
use super::session::Session;
use calendar::DayRefusal;
use day_kinds::DayKind;
use std::io;
use std::io::Read;

fn digit(n: u8) -> u8 {
    if n < 10 { b'0' + n } else { b'?' }
}

fn sign(yes: bool) -> u8 {
    if yes { b'+' } else { b'-' }
}

fn mark(answer: Result<DayKind, DayRefusal>) -> u8 {
    match answer {
        Ok(DayKind::Windows) => b'1',
        Ok(DayKind::Weekend) => b'2',
        Ok(DayKind::Listed) => b'3',
        Ok(DayKind::Christmas) => b'4',
        Ok(DayKind::Bridge) => b'5',
        Err(DayRefusal::YearOut) => b'y',
        Err(DayRefusal::BadList) => b'h',
        Err(DayRefusal::DayOut) => b'd',
    }
}

impl<P: Print, R: Read> Session<'_, P, R> {
    // A character each for day 0, the days of a year and those behind its end.
    fn write_days<F: Fn(u16) -> u8>(&self, letter: F) -> io::Result<()>
        requires { F.IsAlwaysCallable letter }
    {
        for day in 0..368 {
            self.letter(letter(day))?;
        }
        self.end_line()
    }

    // The answers for a year's days under a list.
    fn write_kinds(&self, year: u16, list: &[u16]) -> io::Result<()> {
        let editions = self.editions;
        self.write_days(|day| mark(calendar::day_kind(editions, year, list, day)))
    }

    // Y: a whole year.
    fn whole_year(&self, year: u16, list: &[u16]) -> io::Result<()> {
        self.letter(b'Y')?;
        self.next(year)?;
        self.next(dates::year_days(year))?;
        self.next(periods::period_days(year))?;
        self.end_line()?;
        self.write_days(|day| digit(dates::weekday(year, day)))?;
        self.write_days(|day| digit(dates::season(year, day)))?;
        self.write_days(|day| digit(periods::period_season(year, day)))?;
        self.write_kinds(year, list)
    }

    // L: a holiday list.
    fn whole_list(&self, year: u16, list: &[u16]) -> io::Result<()> {
        self.letter(b'L')?;
        self.next(year)?;
        self.letter(sign(!holidays::bad_holidays(year, list)))?;
        self.end_line()?;
        self.write_kinds(year, list)?;
        for day in calendar::window_days(year, list) {
            self.letter(sign(day))?;
        }
        self.end_line()
    }

    // D: one day.
    fn one_day(&self, year: u16, list: &[u16], day: u16) -> io::Result<()> {
        self.letter(mark(calendar::day_kind(self.editions, year, list, day)))?;
        self.end_line()
    }

    pub(crate) fn one_calendar(&mut self, kind: u8) -> io::Result<()> {
        let year = self.two()?;
        let day = self.two()?;
        let count = usize::from(self.byte()?);
        let list = self.list(count)?;
        let list = &list[..count];
        match kind {
            b'Y' => self.whole_year(year, list),
            b'L' => self.whole_list(year, list),
            _ => self.one_day(year, list, day),
        }
    }
}
