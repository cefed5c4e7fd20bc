// The decision over a customer's whole year. It meets specs/Answers. Rules 6.1 to 7.7 and 8.2; the same day by day is
// room `customer_days`.
// Main theorem: two years that agree in every in-window quarter, with one peak and one energy, are answered the same
// (`same_answer`, proofs/Demand).
#![tactic(auto)]

ghost use Rattle.std.specs.Prelude.{◌≡◌};
ghost use Rattle.tariff.specs.Answers.{said_of};
ghost use Rattle.terms.specs.Basis.{basis};
ghost use Rattle.customer.specs.Answers.{decide_answer};

use editions::Editions;
use readings::Run;
use tariff::{Decision, Prices};

// The decision over a whole series by the edition of the sheet's year. Refuses 12, 1, 2, 12, 3, 6, 4, 5, 8, 9, 10, 11
// in this order; else 0 with the charge.
pub fn decide(
    editions: Editions,
    sheet: &[u8],
    holidays: &[u16],
    prices: Prices,
    option: bool,
    series: &[u32],
) -> Decision
    ensures { said_of result
        ≡ decide_answer (basis editions sheet.now holidays.now prices option) series.now }
{
    let terms = match terms::open(editions, sheet, holidays, prices, option) {
        Ok(terms) => terms,
        Err(refusal) => return refusal.into(),
    };
    let year = terms.rates.year;
    let collected = year_figures::year_figures(year, &terms.carrying, &terms.windows, series);
    let Ok(figures) = collected else {
        return Decision::WrongLength;
    };
    if answers::CUSTOMER_MOST < figures.peak {
        let run = Run::Year(year);
        let place = legal_readings::first_illegal(run, series, answers::CUSTOMER_MOST);
        return Decision::BadReading(place);
    }
    decision::judge(terms.edition, figures, terms.rates)
}
