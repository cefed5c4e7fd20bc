// A series has some 35,000 readings, so a record holds a recipe of one, and then calls on it. Numbers have 16 bits
// where nothing else is said. A record:
//   G, C  length (at most 35,500), base (32 bits: what every reading is at first), count of patches and count of calls
//         (a byte each), the patches, the calls. Prints the letter S and the length, then what grids.rt or customers.rt
//         says
//   a patch: first place (from 0), count, step, value (32 bits), spread, seed. It sets `count` readings, from the first
//         place on and every `step`, to the value less a made-up amount of at most `spread`
ghost use Rattle.std.specs.Prelude.{◌<◌};

use super::session::Session;
use answer_numbers::Numbers;
use customer_days::Customer;
use grid_days::Grid;
use readings::Run;
use std::io;
use std::io::Read;

// More than a day beyond the longest year.
const MOST: usize = 35_500;

// What takes the days of a series: the grid's windows, or a customer's year.
pub(crate) trait Taker: Copy {
    // What one of its calls answers, and what is printed of it.
    type Answer: Copy;

    fn numbers(answer: Self::Answer) -> Numbers;

    // Is the day taken, to which this was answered?
    fn is_taken(answer: Self::Answer) -> bool;

    // The days of its series, by the charge year; and its own year.
    fn run(year: u16) -> Run;

    fn year(self) -> u16;

    // The next state, beside the answer.
    fn take(self, day: &[u32]) -> (Self, Self::Answer);

    // The state that the first call is made on.
    fn first<P: Print, R: Read>(
        session: &mut Session<'_, P, R>,
        series: &[u32],
    ) -> io::Result<Self>;

    // A call that only it has.
    fn own_call<P: Print, R: Read>(
        self,
        session: &mut Session<'_, P, R>,
        series: &[u32],
        kind: u8,
    ) -> io::Result<Self>;
}

// The next of some made-up numbers.
fn made_up(x: u32) -> u32
    requires { x < 65537 }
    ensures { result < 65537 }
{
    (75 * x + 74) % 65537
}

// A patch: `count` readings from `first` on, every `step`, are set to the value less a made-up amount.
#[derive(Clone, Copy)]
struct Patch {
    first: u16,
    count: u16,
    step: u16,
    value: u32,
    spread: u16,
    seed: u16,
}

impl Patch {
    // Places count from 0. A step of 0 sets one place again and again, and places behind the end are left out.
    fn lay(&self, series: &mut [u32]) {
        let mut x = u32::from(self.seed);
        let mut at = usize::from(self.first);
        for _ in 0..self.count {
            if let Some(reading) = series.get_mut(at) {
                *reading = self.value.saturating_sub(x % (u32::from(self.spread) + 1));
            }
            x = made_up(x);
            at += usize::from(self.step);
        }
    }
}

impl<P: Print, R: Read> Session<'_, P, R> {
    fn next_patch(&mut self) -> io::Result<Patch> {
        Ok(Patch {
            first: self.two()?,
            count: self.two()?,
            step: self.two()?,
            value: self.four()?,
            spread: self.two()?,
            seed: self.two()?,
        })
    }

    // A part of the series by its place, from 0, and its length, as much as there is of it.
    fn part<'s>(&mut self, series: &'s [u32]) -> io::Result<&'s [u32]> {
        let at = usize::from(self.two()?).min(series.len());
        let rest = &series[at..];
        let size = usize::from(self.two()?).min(rest.len());
        Ok(&rest[..size])
    }

    // D: days of the series one after the other, until one is refused.
    fn take_days<T: Taker>(&mut self, series: &[u32], taker: T) -> io::Result<T> {
        let first = usize::from(self.two()?);
        let count = self.two()?;
        let run = T::run(taker.year());
        let mut state = taker;
        for k in 0..count {
            let day = readings::day_part(self.editions, run, series, first + usize::from(k));
            let (next, said) = state.take(day);
            state = next;
            if !T::is_taken(said) {
                return self.stopped(k, T::numbers(said), state);
            }
        }
        self.stopped(count, answer_numbers::only(0), state)
    }

    // The line of some days: how many were taken, and what the last was answered.
    fn stopped<T: Taker>(&self, taken: u16, answer: Numbers, state: T) -> io::Result<T> {
        self.letter(b'D')?;
        self.next(taken)?;
        self.numbers(answer)?;
        self.end_line()?;
        Ok(state)
    }

    // P: a part of the series as a day, whatever its length.
    fn take_part<T: Taker>(&mut self, series: &[u32], taker: T) -> io::Result<T> {
        let (next, said) = taker.take(self.part(series)?);
        self.answered(b'P', T::numbers(said))?;
        Ok(next)
    }

    // L: the part of the series that a day is, by its number, from 1: how many readings it has, and its first and last
    // where it has some.
    fn show_day(&mut self, run: Run, series: &[u32]) -> io::Result<()> {
        let day = usize::from(self.two()?);
        let part = readings::day_part(self.editions, run, series, day);
        self.letter(b'L')?;
        self.next(part.len())?;
        if let Some(&first) = part.first() {
            self.next(first)?;
        }
        if let Some(&last) = part.last() {
            self.next(last)?;
        }
        self.end_line()
    }

    fn one_call<T: Taker>(&mut self, series: &[u32], taker: T, kind: u8) -> io::Result<T> {
        match kind {
            b'D' => self.take_days(series, taker),
            b'P' => self.take_part(series, taker),
            b'L' => {
                let run = T::run(self.two()?);
                self.show_day(run, series)?;
                Ok(taker)
            }
            b'E' => {
                self.one_operation()?;
                Ok(taker)
            }
            _ => taker.own_call(self, series, kind),
        }
    }

    // The calls of a record. Its operations on the list of editions hold up to its end.
    fn all_calls<T: Taker>(&mut self, series: &[u32], count: u8) -> io::Result<T> {
        let editions = self.editions;
        let mut taker = T::first(self, series)?;
        for _ in 0..count {
            let kind = self.byte()?;
            taker = self.one_call(series, taker, kind)?;
        }
        self.editions = editions;
        Ok(taker)
    }

    pub(crate) fn one_series(&mut self, kind: u8) -> io::Result<()> {
        let len = usize::from(self.two()?).min(MOST);
        let base = self.four()?;
        let patches = self.byte()?;
        let calls = self.byte()?;
        let mut series = [base; MOST];
        for _ in 0..patches {
            let patch = self.next_patch()?;
            patch.lay(&mut series);
        }
        let series = &series[..len];
        self.letter(b'S')?;
        self.next(len)?;
        self.end_line()?;
        match kind {
            b'G' => {
                self.all_calls::<Grid>(series, calls)?;
            }
            _ => {
                self.all_calls::<Customer>(series, calls)?;
            }
        }
        Ok(())
    }
}
