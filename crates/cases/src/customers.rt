// A customer's year, whole and by days: calls on a series (series.rt). Numbers have 16 bits where nothing else is said.
// Each call prints a line: its letter, the answer's number, and its figures in the order of Rule 8.1. The calls begin
// with what follows the letter A.
//   A  terms: sheet's length (a byte, at most 64) and bytes, count of holidays (a byte, at most 64) and holidays, the
//      four prices of 32 bits each, low row before high row and capacity before energy, option (a byte). The decision
//      over the whole series (W), and an opening (O).
//   D  day (from 1), count: as many days of the series from that day on, until one is refused. The days taken stand
//      before the number.
//   P  place (from 0), length: that part of the series as a day.
//   L  year, day (from 1): the part of the series that is that day: how many readings, and the first and the last.
//   C  a closing, which leaves the state to the calls after it.
//   E  an operation on the list of editions (lists.rt): the calls after it go by that list, up to the record's end.
// tests/customer_records.py makes them, and what must come of them, for customer_cases.py, customer_refusals.py,
// sunday_cases.py, edition_cases.py and edition_series.py beside it.
use super::series::Taker;
use super::session::Session;
use answer_numbers::Numbers;
use customer_days::Customer;
use readings::Run;
use std::io;
use std::io::Read;
use tariff::Decision;

impl Taker for Customer {
    type Answer = Decision;

    fn numbers(answer: Decision) -> Numbers {
        decision_numbers::of_decision(answer)
    }

    fn is_taken(answer: Decision) -> bool {
        matches!(answer, Decision::Taken)
    }

    fn run(year: u16) -> Run {
        Run::Year(year)
    }

    fn year(self) -> u16 {
        self.terms.rates.year
    }

    fn take(self, day: &[u32]) -> (Customer, Decision) {
        let stepped = self.day(day);
        (stepped.customer, stepped.answer)
    }

    // The calls begin with terms, so that there is a state.
    fn first<P: Print, R: Read>(
        session: &mut Session<'_, P, R>,
        series: &[u32],
    ) -> io::Result<Customer> {
        session.open_customer(series)
    }

    fn own_call<P: Print, R: Read>(
        self,
        session: &mut Session<'_, P, R>,
        series: &[u32],
        kind: u8,
    ) -> io::Result<Customer> {
        match kind {
            b'A' => session.open_customer(series),
            _ => session.close_customer(self),
        }
    }
}

impl<P: Print, R: Read> Session<'_, P, R> {
    // A: the whole series, and an opening under the same terms.
    fn open_customer(&mut self, series: &[u32]) -> io::Result<Customer> {
        let len = self.room()?;
        let sheet = self.bytes(len)?;
        let sheet = &sheet[..len];
        let count = self.room()?;
        let holidays = self.list(count)?;
        let holidays = &holidays[..count];
        let prices = self.next_prices()?;
        let option = self.yes()?;
        let editions = self.editions;
        let whole = customer::decide(editions, sheet, holidays, prices, option, series);
        self.answered(b'W', decision_numbers::of_decision(whole))?;
        let opened = Customer::open(editions, sheet, holidays, prices, option);
        self.answered(b'O', decision_numbers::of_decision(opened.answer))?;
        Ok(opened.customer)
    }

    // C: a closing, which leaves the state.
    fn close_customer(&mut self, customer: Customer) -> io::Result<Customer> {
        self.answered(b'C', decision_numbers::of_decision(customer.close()))?;
        Ok(customer)
    }
}
