// Prices, charges and the decision over a year's figures, as they are defined: the types stand here, the definitions in
// specs/Prices, specs/Charges, specs/Answers, specs/Decision, specs/Rows and specs/Demand, and the rooms `charges` and
// `decision` have the code that meets them. Rules 2.5, 6.6, 7.1 to 7.7 and 8.1.
// Main theorem: a lower in-window peak, with all else the same, never costs more, and an acceptance stays one
// (`never_more`, `stays`, proofs/Demand).
#![tactic(auto)]

use answers::Place;

// A row of a price list: the capacity price in cent for one kW a year, the energy price in thousandths of a cent for
// one kWh.
#[derive(Clone, Copy)]
pub struct Row {
    pub capacity: u32,
    pub energy: u32,
}

// The low row, for customers with fewer hours of use than the edition's, 2,500 today, and the high row, for all others
// (Rule 2.5).
#[derive(Clone, Copy)]
pub struct Prices {
    pub few: Row,
    pub many: Row,
}

// What a year's figures are judged by: the sheet's charge year and level (a code from 1), the customer's option and the
// price list. The decision does not look at the year: it stands here because it says how many days the customer's
// series has (room `customer`).
#[derive(Clone, Copy)]
pub struct Rates {
    pub year: u16,
    pub level: u8,
    pub option: bool,
    pub prices: Prices,
}

// A year's figures: the annual peak M, in W; the sum S of all readings; whether the year has an in-window quarter,
// which an H of 0 does not tell; the in-window peak H, in W, and its place, the day from 1 and the quarter from 0. Day
// 0 is no place. Rules 6.3 to 6.5.
// Kept: a flag beside H and its place, no Option. Forged figures may have an H and no such quarter, and both charges go
// by that H: each such record has an answer of its own, so none may be lost.
#[derive(Clone, Copy)]
pub struct Figures {
    pub peak: u32,
    pub sum: u64,
    pub any: bool,
    pub high: u32,
    pub day: u16,
    pub quarter: u8,
}

// The figures of no day.
pub const NO_FIGURES: Figures = Figures {
    peak: 0,
    sum: 0,
    any: false,
    high: 0,
    day: 0,
    quarter: 0,
};

// The figures of 8: the general charge g in cent, M and S.
#[derive(Clone, Copy)]
pub struct Plain {
    pub general: u64,
    pub peak: u32,
    pub sum: u64,
}

// The figures of 9, 10 and 11: those of 8, then H and its place, the day from 1 and the quarter from 0.
#[derive(Clone, Copy)]
pub struct Peaks {
    pub plain: Plain,
    pub high: u32,
    pub day: u16,
    pub quarter: u8,
}

// The figures of 0: the charge c in cent, then those of 9, 10 and 11.
#[derive(Clone, Copy)]
pub struct Charged {
    pub charge: u64,
    pub peaks: Peaks,
}

// A year's charges in cent: the charge c of a customer who is accepted, and the general charge g.
#[derive(Clone, Copy)]
pub struct TwoCharges {
    pub charge: u64,
    pub general: u64,
}

// A price of the list is above its limit: what the calls for the charges alone refuse, 6, and else they give the cents.
#[derive(Clone, Copy, PartialEq, Eq)]
pub struct PricesOut;

// What the decision answers, and the calls around it in the rooms above: 0 with the charge, 0 with yes, 0 of an opening
// or a day that is taken, 1, 2, 3, 4, 5 with its place, 6, 8, 9, 10, 11, 12, 13. Proofs name a case by its place in
// this list, from 0: so a new case stands last, and no other moves.
// Kept: one enum and no Result: document 01 gives what a decision answers this form (docs/DECISIONS.md).
#[derive(Clone, Copy)]
pub enum Decision {
    Accepted(Charged),
    Eligible,
    Taken,
    YearOut,
    LevelOut,
    BadHolidays,
    WrongLength,
    BadReading(Place),
    PriceOut,
    NoWindow(Plain),
    ShareShort(Peaks),
    MoveShort(Peaks),
    ReductionShort(Peaks),
    Malformed,
    DayOut,
}
