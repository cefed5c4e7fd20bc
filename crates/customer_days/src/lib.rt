// A customer's year that is given day by day: opening, one day after the other, closing. It meets specs/Days. Rules 9.3
// to 9.6. The days taken count from 0, the day that 5 names from 1.
// Main theorem: days given one by one, refused ones among them, close as the whole series of the taken days
// (`days_whole`, proofs/Whole).
#![tactic(auto)]

ghost use Rattle.std.specs.Prelude.{◌≡◌};
ghost use Rattle.tariff.specs.Answers.{said_of};
ghost use Rattle.terms.specs.Basis.{basis};
ghost use Rattle.terms.specs.Opening.{customer_open_answer};
ghost use Rattle.customer_days.specs.Days.{open_customer, day_under, customer_day_answer, customer_taken, day_customer, customer_close_answer, Steps};
ghost use Rattle.customer_days.specs.Rows.{DayFits};

use editions::Editions;
use legal_readings::Unfit;
use readings::Run;
use tariff::{Decision, Figures, Prices};
use terms::Terms;

// The most that a day of legal readings can add to the sum: a hundred of the highest (`readings::MOST_READINGS`).
const DAY_SUM_MOST: u64 = 100_000_000_000;

// A year that is given day by day: the days taken so far, and their figures.
#[derive(Clone, Copy)]
pub struct Customer {
    pub terms: Terms,
    pub seen: u16,
    pub figures: Figures,
}

// An answer, and the next state beside it.
// Kept: a struct of its own for each series: document 01 has methods by value hand the state back beside the answer.
#[derive(Clone, Copy)]
pub struct Stepped {
    pub answer: Decision,
    pub customer: Customer,
}

// What a day is answered where so many days are taken, with this sum: 13, also for a sum that no legal days have, then
// 4, then 5.
// Kept: a decision that may be `Taken`, no Result: it stands in `Stepped` as it is, beside the next state.
fn day_answer(year: u16, seen: u16, sum: u64, day: &[u32]) -> Decision
    ensures { said_of result ≡ day_under year seen sum day.now }
{
    if DAY_SUM_MOST * u64::from(seen) < sum {
        return Decision::DayOut;
    }
    match legal_readings::check_next(Run::Year(year), answers::CUSTOMER_MOST, seen, day) {
        Ok(()) => Decision::Taken,
        Err(Unfit::DayOut) => Decision::DayOut,
        Err(Unfit::WrongLength) => Decision::WrongLength,
        Err(Unfit::BadReading(place)) => Decision::BadReading(place),
    }
}

impl Customer {
    // Opens a year that comes day by day. Refuses 12, 1, 2, 12, 3, 6 in this order; beside a refusal stands one fixed
    // state, which takes no day and never closes (Rule 9.5).
    pub fn open(
        editions: Editions,
        sheet: &[u8],
        holidays: &[u16],
        prices: Prices,
        option: bool,
    ) -> Stepped
        ensures { let k = basis editions sheet.now holidays.now prices option in
            Steps (customer_open_answer k) (open_customer k) result }
    {
        match terms::open(editions, sheet, holidays, prices, option) {
            Ok(terms) => Stepped {
                answer: Decision::Taken,
                customer: Customer {
                    terms,
                    seen: 0,
                    figures: tariff::NO_FIGURES,
                },
            },
            Err(refusal) => Stepped {
                answer: refusal.into(),
                customer: Customer {
                    terms: terms::no_terms(),
                    seen: readings::SHUT_DAYS,
                    figures: tariff::NO_FIGURES,
                },
            },
        }
    }

    // A legal day is taken in: it fits, so that taking it never answers 13 or 4.
    fn add(self, day: &[u32]) -> Customer
        requires { DayFits self day.now }
        ensures { result ≡ customer_taken self day.now }
    {
        let Customer {
            terms,
            seen,
            figures,
        } = self;
        let row = year_figures::day_row(terms.rates.year, seen, &terms.carrying, &terms.windows);
        let taking = day_figures::take_day(figures, seen, row, day);
        Customer {
            terms,
            seen: seen + 1,
            figures: taking.unwrap_or(tariff::NO_FIGURES),
        }
    }

    // One day more. Refuses 13, 4, 5 in this order, and then hands back the state as it was.
    pub fn day(self, day: &[u32]) -> Stepped
        ensures { Steps (customer_day_answer self day.now) (day_customer self day.now) result }
    {
        let answer = day_answer(self.terms.rates.year, self.seen, self.figures.sum, day);
        let Decision::Taken = answer else {
            return Stepped {
                answer,
                customer: self,
            };
        };
        Stepped {
            answer,
            customer: self.add(day),
        }
    }

    // The decision over the days taken: 13 where they are not all in, else as the whole series.
    pub fn close(self) -> Decision
        ensures { said_of result ≡ customer_close_answer self }
    {
        if self.seen != dates::year_days(self.terms.rates.year) {
            return Decision::DayOut;
        }
        decision::judge(self.terms.edition, self.figures, self.terms.rates)
    }
}
