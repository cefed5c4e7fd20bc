// A decision as plain numbers: its number and the figures that follow it. It meets `answer_numbers`, specs/Numbers, and
// `tariff`, specs/Answers. Rule 8.1.
// Main theorem: no decision has more than seven figures (`decision_small`, proofs/Line), so its list says all of them.
#![tactic(auto)]

ghost use Rattle.std.specs.Prelude.{◌≡◌};
ghost use Rattle.tariff.specs.Answers.{said_of, with_plain, with_peaks, with_charge};
ghost use Rattle.answer_numbers.specs.Numbers.{numbers_of};

use answer_numbers::Numbers;
use tariff::{Charged, Decision, Peaks, Plain};

// 8: g, M, S.
// Kept: a list for each row of the table of answers, here and below, with its figures in the table's order.
fn with_plain(a: Plain) -> Numbers
    ensures { result ≡ numbers_of (with_plain a) }
{
    Numbers {
        number: 8,
        count: 3,
        figures: [a.general, u64::from(a.peak), a.sum, 0, 0, 0, 0],
    }
}

// 9, 10 or 11: g, M, S, H and its place, the day from 1 and the quarter from 0.
fn with_peaks(number: u64, a: Peaks) -> Numbers
    ensures { result ≡ numbers_of (with_peaks number a) }
{
    let plain = a.plain;
    Numbers {
        number,
        count: 6,
        figures: [
            plain.general,
            u64::from(plain.peak),
            plain.sum,
            u64::from(a.high),
            u64::from(a.day),
            u64::from(a.quarter),
            0,
        ],
    }
}

// 0: c, then the figures of 9, 10 and 11.
fn with_charge(a: Charged) -> Numbers
    ensures { result ≡ numbers_of (with_charge a) }
{
    let peaks = a.peaks;
    let plain = peaks.plain;
    Numbers {
        number: 0,
        count: 7,
        figures: [
            a.charge,
            plain.general,
            u64::from(plain.peak),
            plain.sum,
            u64::from(peaks.high),
            u64::from(peaks.day),
            u64::from(peaks.quarter),
        ],
    }
}

// 0 with yes, which is 1.
fn eligible() -> Numbers
    ensures { result ≡ numbers_of (said_of Decision.Eligible) }
{
    Numbers {
        number: 0,
        count: 1,
        figures: [1, 0, 0, 0, 0, 0, 0],
    }
}

// A decision's number and its figures, as the table of answers has them.
// Kept: a function and no `From`. Neither type is of this crate, and Rust wants the impl beside one of them.
pub fn of_decision(answer: Decision) -> Numbers
    ensures { result ≡ numbers_of (said_of answer) }
{
    match answer {
        Decision::Accepted(a) => with_charge(a),
        Decision::Eligible => eligible(),
        Decision::Taken => answer_numbers::only(0),
        Decision::YearOut => answer_numbers::only(1),
        Decision::LevelOut => answer_numbers::only(2),
        Decision::BadHolidays => answer_numbers::only(3),
        Decision::WrongLength => answer_numbers::only(4),
        Decision::BadReading(place) => answer_numbers::with_place(place),
        Decision::PriceOut => answer_numbers::only(6),
        Decision::NoWindow(a) => with_plain(a),
        Decision::ShareShort(a) => with_peaks(9, a),
        Decision::MoveShort(a) => with_peaks(10, a),
        Decision::ReductionShort(a) => with_peaks(11, a),
        Decision::Malformed => answer_numbers::only(12),
        Decision::DayOut => answer_numbers::only(13),
    }
}
