// The terms of a customer's year: what it is judged under, and the opening that makes them from a sheet, a holiday
// list, prices and option, by a list of editions. It meets specs/Opening; specs/Basis has the five as one argument.
// Rules 8.2, 9.3 and 9.5.
// Main theorem: an opening gives a number exactly when that number's row holds and no row before it (proofs/Exactly).
#![tactic(auto)]

ghost use Rattle.std.specs.Prelude.{◌≡◌};
ghost use Rattle.sheet.specs.Answers.{said_of_read};
ghost use Rattle.tariff.specs.Answers.{said_of};
ghost use Rattle.terms.specs.Basis.{basis};
ghost use Rattle.terms.specs.Opening.{said_of_open_refusal, no_terms, Opens};

use answers::Edition;
use editions::Editions;
use sheet::ReadRefusal;
use tariff::{Decision, Prices, Rates, Row};

// What a year is judged under: the edition of the year; its rates; the sheet's windows, season 1 first and of each
// season quarter 0 first; and which days carry windows, 1 January at place 0.
#[derive(Clone, Copy)]
pub struct Terms {
    pub edition: Edition,
    pub rates: Rates,
    pub windows: [bool; sheet::WINDOW_PLACES],
    pub carrying: [bool; dates::MOST_DAYS],
}

// Why an opening refuses: 1, 2, 3, 6, 12.
#[derive(Clone, Copy, PartialEq, Eq)]
pub enum OpenRefusal {
    YearOut,
    LevelOut,
    BadHolidays,
    PriceOut,
    Malformed,
}

impl From<ReadRefusal> for OpenRefusal {
    ghost from_gives = { λ a r. said_of_open_refusal r ≡ said_of_read a };

    fn from(refusal: ReadRefusal) -> OpenRefusal {
        match refusal {
            ReadRefusal::YearOut => OpenRefusal::YearOut,
            ReadRefusal::LevelOut => OpenRefusal::LevelOut,
            ReadRefusal::Malformed => OpenRefusal::Malformed,
        }
    }
}

impl From<OpenRefusal> for Decision {
    ghost from_gives = { λ a r. said_of r ≡ said_of_open_refusal a };

    fn from(refusal: OpenRefusal) -> Decision {
        match refusal {
            OpenRefusal::YearOut => Decision::YearOut,
            OpenRefusal::LevelOut => Decision::LevelOut,
            OpenRefusal::BadHolidays => Decision::BadHolidays,
            OpenRefusal::PriceOut => Decision::PriceOut,
            OpenRefusal::Malformed => Decision::Malformed,
        }
    }
}

// The fixed terms beside a refusal: a state that is handed back has them.
// Kept: zeros and no Option: the state of a refused opening holds them (Rule 9.5).
pub fn no_terms() -> Terms
    ensures { result ≡ no_terms }
{
    Terms {
        edition: answers::NO_EDITION,
        rates: Rates {
            year: 0,
            level: 0,
            option: false,
            prices: Prices {
                few: Row {
                    capacity: 0,
                    energy: 0,
                },
                many: Row {
                    capacity: 0,
                    energy: 0,
                },
            },
        },
        windows: [false; sheet::WINDOW_PLACES],
        carrying: [false; dates::MOST_DAYS],
    }
}

// Opens a customer's year; the terms keep the edition of that year. Refuses 12, 1, 2, 12, 3, 6 in this order (Rule
// 8.2).
// Kept: five parameters, here and in the two calls that begin with this one. A struct of them would hold two lent
// slices, be made anew by each caller and be taken apart here, the only place that looks inside.
pub fn open(
    editions: Editions,
    sheet: &[u8],
    holidays: &[u16],
    prices: Prices,
    option: bool,
) -> Result<Terms, OpenRefusal>
    ensures { Opens (basis editions sheet.now holidays.now prices option) result }
{
    let edition = editions::pick(editions, encoding::two_at(sheet, sheet::YEAR_AT));
    let meaning = sheet_read::read_by(edition, sheet)?;
    if holidays::bad_holidays(meaning.year, holidays) {
        return Err(OpenRefusal::BadHolidays);
    }
    if price_limits::prices_out(prices) {
        return Err(OpenRefusal::PriceOut);
    }
    let windows = meaning.windows;
    let carrying = calendar::window_days(meaning.year, holidays);
    Ok(Terms {
        edition,
        rates: Rates {
            year: meaning.year,
            level: meaning.level,
            option,
            prices,
        },
        windows,
        carrying,
    })
}
