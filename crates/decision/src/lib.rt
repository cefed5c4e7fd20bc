// The decision over a year's figures: may the customer pay the reduced charge, what is it, and both together. It meets
// `tariff`, specs/Decision and specs/Answers; what follows from an answer is proved there, too. Rules 7.6, 7.7 and 8.2.
#![tactic(auto)]

ghost use Rattle.std.specs.Prelude.{◌≡◌, ◌+◌, ◌*◌, true, false, ltb, MatchOption};
ghost use Rattle.answers.specs.Edition.{whole_share};
ghost use Rattle.answers.specs.Ruling.{least_reduction, level_out, share_of};
ghost use Rattle.tariff.specs.declared.Rates.{Rates};
ghost use Rattle.tariff.specs.Answers.{said_of, plain_of, peaks_of};
ghost use Rattle.tariff.specs.Charges.{general, charges_of};
ghost use Rattle.tariff.specs.Decision.{moved, eligible_rules, charge_rules, eligible_answer, charge_answer, judge_answer};

use answers::Edition;
use tariff::{Charged, Decision, Figures, Peaks, Plain, Rates, TwoCharges};

// M - H, in W. 0 where H is above M: no year has such figures, but all figures have an answer.
fn moved_out(figures: Figures) -> u32
    ensures { result ≡ moved figures }
{
    figures.peak.saturating_sub(figures.high)
}

// The share that an edition asks for at a level, in percent; none at a level that is no code (2). Levels count from 1:
// level 1 has place 0.
fn share(edition: Edition, level: u8) -> Option<u8>
    ensures { MatchOption result
        (level_out level ≡ true)
        (λ s. (level_out level ≡ false) × (s ≡ share_of edition level)) }
{
    if answers::level_out(level) {
        return None;
    }
    Some(edition.shares[usize::from(level - 1)])
}

// Is a share, in percent, missed (9)? Equality passes.
fn share_short(share: u8, figures: Figures) -> bool
    ensures { result ≡ ltb (whole_share * moved figures) (share * figures.peak) }
{
    answers::WHOLE_SHARE * u64::from(moved_out(figures))
        < u64::from(share) * u64::from(figures.peak)
}

// The figures of 8: g, M and S.
fn plain_of(figures: Figures, g: u64) -> Plain
    ensures { result ≡ plain_of figures g }
{
    Plain {
        general: g,
        peak: figures.peak,
        sum: figures.sum,
    }
}

// The figures of 9, 10 and 11: those of 8, then H and its place, the day from 1 and the quarter from 0.
fn peaks_of(figures: Figures, g: u64) -> Peaks
    ensures { result ≡ peaks_of figures g }
{
    Peaks {
        plain: plain_of(figures, g),
        high: figures.high,
        day: figures.day,
        quarter: figures.quarter,
    }
}

// Is the reduction less than the edition's least one (11)? There is no sum that could be too large: charges of any size
// have an answer.
fn reduction_short(edition: Edition, charges: TwoCharges) -> bool
    ensures { result ≡ ltb charges.general (charges.charge + least_reduction edition) }
{
    match charges.general.checked_sub(charges.charge) {
        Some(cut) => cut < u64::from(edition.least_reduction),
        None => true,
    }
}

// The rules of the first half: 8, 9, 10, else 0 with yes. They look at the share of the level, in percent, and at the
// general charge g, and not at the rates that these come from.
fn eligible_rules(edition: Edition, figures: Figures, share: u8, g: u64) -> Decision
    ensures { (rates : Rates) → share ≡ share_of edition rates.level → g ≡ general edition figures rates
        → said_of result ≡ eligible_rules edition figures rates }
{
    if !figures.any {
        return Decision::NoWindow(plain_of(figures, g));
    }
    if share_short(share, figures) {
        return Decision::ShareShort(peaks_of(figures, g));
    }
    if moved_out(figures) < edition.least_move {
        return Decision::MoveShort(peaks_of(figures, g));
    }
    Decision::Eligible
}

// The rules of the second half: 8, 11, else 0 with the charge. They look at the charges and not at the rates that these
// come from.
fn charge_rules(edition: Edition, figures: Figures, charges: TwoCharges) -> Decision
    ensures { (rates : Rates) → charges ≡ charges_of edition figures rates → said_of result ≡ charge_rules edition figures rates }
{
    if !figures.any {
        return Decision::NoWindow(plain_of(figures, charges.general));
    }
    let peaks = peaks_of(figures, charges.general);
    if reduction_short(edition, charges) {
        return Decision::ReductionShort(peaks);
    }
    Decision::Accepted(Charged {
        charge: charges.charge,
        peaks,
    })
}

// May the customer pay the reduced charge by an edition? Refuses 2, 6, 8, 9, 10 in this order, else 0 with yes. Any
// edition and any figures have an answer.
// Kept: three parameters, here and in the two calls below: the definitions take the three, and a struct of them would
// be made by each caller only to be taken apart here.
pub fn eligible(edition: Edition, figures: Figures, rates: Rates) -> Decision
    ensures { said_of result ≡ eligible_answer edition figures rates }
{
    let Some(share) = share(edition, rates.level) else {
        return Decision::LevelOut;
    };
    let Ok(g) = charges::general_charge(edition, figures, rates) else {
        return Decision::PriceOut;
    };
    eligible_rules(edition, figures, share, g)
}

// What a customer who may pay the reduced charge is charged by an edition. Refuses 6, 8, 11 in this order, else 0 with
// the charge. Any edition and any figures have an answer.
pub fn charge(edition: Edition, figures: Figures, rates: Rates) -> Decision
    ensures { said_of result ≡ charge_answer edition figures rates }
{
    let Ok(both) = charges::both_charges(edition, figures, rates) else {
        return Decision::PriceOut;
    };
    charge_rules(edition, figures, both)
}

// The decision over a year's figures by an edition: the two halves in a row, by their rules, so that no rule is written
// twice, the level and the prices are tested once and each charge is worked out once. Refuses 2, 6, 8, 9, 10, 11 in
// this order, else 0 with the charge. Any edition and any figures have an answer.
pub fn judge(edition: Edition, figures: Figures, rates: Rates) -> Decision
    ensures { said_of result ≡ judge_answer edition figures rates }
{
    let Some(share) = share(edition, rates.level) else {
        return Decision::LevelOut;
    };
    let Ok(both) = charges::both_charges(edition, figures, rates) else {
        return Decision::PriceOut;
    };
    let first = eligible_rules(edition, figures, share, both.general);
    if let Decision::Eligible = first {
        return charge_rules(edition, figures, both);
    }
    first
}
