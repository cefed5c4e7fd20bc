// The rules over a year's figures (Rules 7.1 to 7.7). A record:
//   T  charge year (16 bits), M (32 bits), S (64 bits), is there an in-window quarter (a byte), H (32 bits), its day
//      (16 bits, from 1) and quarter (a byte, from 0), level (a byte), the four prices of 32 bits each, low row before
//      high row and capacity before energy, option (a byte)
// They are judged by the edition that the current list has for the year; where it has none, by the edition of no year.
// It prints a line for each call: the answer's number, and its figures in the order of Rule 8.1.
//   P  prices_out: 1 for yes, 0 for no
//   E  eligible
//   C  charge
//   J  judge
// tests/tariff_cases.py makes them, and what must come of them, and edition_figures.py beside it by other editions.
use super::session::Session;
use std::io;
use std::io::Read;
use tariff::{Figures, Prices, Rates, Row};

impl<P: Print, R: Read> Session<'_, P, R> {
    fn next_figures(&mut self) -> io::Result<Figures> {
        Ok(Figures {
            peak: self.four()?,
            sum: self.eight()?,
            any: self.yes()?,
            high: self.four()?,
            day: self.two()?,
            quarter: self.byte()?,
        })
    }

    fn next_row(&mut self) -> io::Result<Row> {
        Ok(Row {
            capacity: self.four()?,
            energy: self.four()?,
        })
    }

    pub(crate) fn next_prices(&mut self) -> io::Result<Prices> {
        Ok(Prices {
            few: self.next_row()?,
            many: self.next_row()?,
        })
    }

    fn next_rates(&mut self, year: u16) -> io::Result<Rates> {
        let level = self.byte()?;
        let prices = self.next_prices()?;
        Ok(Rates {
            year,
            level,
            option: self.yes()?,
            prices,
        })
    }

    // T: one set of figures.
    pub(crate) fn one_set(&mut self) -> io::Result<()> {
        let year = self.two()?;
        let edition = editions::pick(self.editions, year);
        let figures = self.next_figures()?;
        let rates = self.next_rates(year)?;
        self.letter(b'P')?;
        self.next(u8::from(price_limits::prices_out(rates.prices)))?;
        self.end_line()?;
        self.answered(
            b'E',
            decision_numbers::of_decision(decision::eligible(edition, figures, rates)),
        )?;
        self.answered(
            b'C',
            decision_numbers::of_decision(decision::charge(edition, figures, rates)),
        )?;
        self.answered(
            b'J',
            decision_numbers::of_decision(decision::judge(edition, figures, rates)),
        )
    }
}
