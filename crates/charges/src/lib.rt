// Works out the charges of a year's figures. Any figures and any prices have an answer. It meets `tariff`,
// specs/Charges and specs/Decision. Rules 6.6 and 7.1 to 7.5.
#![tactic(auto)]

ghost use Rattle.std.specs.Prelude.{◌≡◌, ◌≤◌, true, max, MatchResult};
ghost use Rattle.tariff.specs.Prices.{prices_out, LegalRow, LegalPrices};
ghost use Rattle.tariff.specs.Charges.{few_hours, row_of, charge_for, charge_most, general, reduced, floor_of};
ghost use Rattle.tariff.specs.Answers.{said_of_general, said_of_charges};
ghost use Rattle.tariff.specs.Decision.{general_answer, charges_answer};

use answers::Edition;
use tariff::{Figures, PricesOut, Rates, Row, TwoCharges};

// An hour has four quarters: hours of use are held against a sum of readings (Rule 6.6).
const HOUR_QUARTERS: u64 = 4;

// A cent has 4,000,000 parts, in which charges are added up; one W at one cent for one kW a year is 4,000 of them.
const CENT_PARTS: u64 = 4_000_000;

const CAPACITY_PARTS: u64 = 4_000;

const HALF_CENT: u64 = CENT_PARTS / 2;

// A charge in cent for a capacity figure in W, rounded once. The sum is taken apart into a multiple of 4,000,000 and
// the rest: the multiple makes whole cents and needs no rounding, and so no product is too large, whatever the sum.
fn charge_for(power: u32, row: Row, sum: u64) -> u64
    requires { LegalRow row }
    ensures { result ≡ charge_for power row sum }
{
    let watts = u64::from(power);
    let capacity = u64::from(row.capacity);
    let energy = u64::from(row.energy);
    sum / CENT_PARTS * energy
        + (CAPACITY_PARTS * watts * capacity + sum % CENT_PARTS * energy + HALF_CENT) / CENT_PARTS
}

// The larger of the reduced charge r and the floor, a percentage of the general charge g. It goes up to a whole cent:
// down, it could be less than that percentage, which the ordinance does not allow (Rule 7.4). g is taken apart into
// hundreds and the rest, as a sum is for a charge: 100 times g would not fit 64 bits.
fn with_floor(edition: Edition, r: u64, g: u64) -> u64
    requires { g ≤ charge_most }
    ensures { result ≡ max r (floor_of edition g) }
{
    let percent = u64::from(edition.floor);
    let floor = g / answers::WHOLE_SHARE * percent
        + (g % answers::WHOLE_SHARE * percent + (answers::WHOLE_SHARE - 1)) / answers::WHOLE_SHARE;
    r.max(floor)
}

// A year's figures and what they are charged by, with prices within their limits: no charge of it is too large.
#[derive(Clone, Copy)]
struct Priced {
    edition: Edition,
    figures: Figures,
    rates: Rates,
    ghost legal: { LegalPrices rates.prices },
}

impl Priced {
    // A price above its limit is refused (6). Any edition, any figures and any rates have an answer.
    fn new(edition: Edition, figures: Figures, rates: Rates) -> Result<Priced, PricesOut>
        ensures { MatchResult result
            (λ p. (p.edition ≡ edition) × (p.figures ≡ figures) × (p.rates ≡ rates))
            (λ _. prices_out rates.prices ≡ true) }
    {
        if price_limits::prices_out(rates.prices) {
            return Err(PricesOut);
        }
        Ok(Priced {
            edition,
            figures,
            rates,
        })
    }

    // Are there fewer hours of use than the edition's? There is no division, since M may be 0: then the high row
    // applies.
    fn few_hours(self) -> bool
        ensures { result ≡ few_hours self.edition self.figures }
    {
        let hours = HOUR_QUARTERS * u64::from(self.edition.hours);
        self.figures.sum < hours * u64::from(self.figures.peak)
    }

    // The low row where `low` is set, else the high row.
    fn row(self, low: bool) -> Row
        ensures { (result ≡ row_of self.rates.prices low) × LegalRow result }
    {
        if low {
            self.rates.prices.few
        } else {
            self.rates.prices.many
        }
    }

    // The general charge in cent: for M. It never goes by the option, and the reduction is measured from it.
    fn general(self) -> u64
        ensures { result ≡ general self.edition self.figures self.rates }
    {
        charge_for(
            self.figures.peak,
            self.row(self.few_hours()),
            self.figures.sum,
        )
    }

    // The reduced charge in cent: for H, in the same row. With the option and fewer hours of use than the edition's it
    // is the high row.
    fn reduced(self) -> u64
        ensures { result ≡ reduced self.edition self.figures self.rates }
    {
        let row = self.row(self.few_hours() & !self.rates.option);
        charge_for(self.figures.high, row, self.figures.sum)
    }
}

// The general charge by an edition, or 6. Any edition, any figures and any rates have an answer.
// Kept: three parameters, here and in `both_charges`: the definitions take the three, and `Priced` holds them inside,
// where their prices are known to be within the limits.
pub fn general_charge(edition: Edition, figures: Figures, rates: Rates) -> Result<u64, PricesOut>
    ensures { said_of_general result ≡ general_answer edition figures rates }
{
    Ok(Priced::new(edition, figures, rates)?.general())
}

// The charge c beside the general charge g by an edition, or 6. The decision needs both and asks once. Any edition, any
// figures and any rates have an answer.
pub fn both_charges(
    edition: Edition,
    figures: Figures,
    rates: Rates,
) -> Result<TwoCharges, PricesOut>
    ensures { said_of_charges result ≡ charges_answer edition figures rates }
{
    let priced = Priced::new(edition, figures, rates)?;
    let general = priced.general();
    let charge = with_floor(edition, priced.reduced(), general);
    Ok(TwoCharges { charge, general })
}
