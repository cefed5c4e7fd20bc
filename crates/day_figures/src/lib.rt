// Takes a day, or a stretch of days at once, into the figures of the days before: short passes over the readings, by
// the quarters that count. It meets specs/Day; specs/Passes says what the steps inside do. Days d, positions p and
// quarters q count from 0. Rules 6.3 to 6.5 and 8.2.
// Main theorem: where a year can have the day, the sum has room for it and it is as long as a day is, the day is taken
// in (`day_fits`, proofs/Fits); else the answer is 13 or 4.
#![tactic(auto)]

ghost use Rattle.std.specs.Prelude.{◌≡◌, Ok, Err, unwrap_or, IfSome, Bool, false, cond, ◌&&◌, ℕ, ◌+◌, ◌%◌, ◌≤◌, ◌<◌, eqb, length, get_or, position, zip};
ghost use Rattle.std.specs.Int.Bits.{bit_and};
ghost use Rattle.ranges.specs.Ranges.{number_if};
ghost use Rattle.answers.specs.Ruling.{day_quarters};
ghost use Rattle.readings.specs.Legal.{highest_of};
ghost use Rattle.day_figures.specs.declared.TakingRefusal.TheVariants.{WrongLength};
ghost use Rattle.day_figures.specs.Day.{alone, with_day, day_most, sum_end, days_out, no_day, day_taken, row_if, days_taken};
ghost use Rattle.day_figures.specs.Passes.{four_end, all_ones, masks_of, some_left, masked_high, tops_of, plainly, high_at, HighAt, FewReadings, SumFits, Numbered, Sized, Fits, DaySum};

use readings::Change;
use tariff::Figures;

// No day adds more than this to a sum: 100 readings of 32 bits, all bits set.
const DAY_MOST: u64 = 429_496_729_500;

// Four readings below this, 2^30, have a sum that fits 32 bits.
const FOUR_END: u32 = 1_073_741_824;

// The highest reading of a day, and the sum.
#[derive(Clone, Copy)]
struct Tops {
    peak: u32,
    sum: u64,
}

// What taking days into figures is refused for: 4, 13.
#[derive(Clone, Copy, PartialEq, Eq)]
pub enum TakingRefusal {
    WrongLength,
    DayOut,
}

// Four readings below 2^30, added up: their sum fits 32 bits.
fn sum_four(a: u32, b: u32, c: u32, e: u32) -> u64
    requires { (a < four_end) × (b < four_end) × (c < four_end) × (e < four_end) }
    ensures { (result ≡ a + b + c + e) × (result < 4294967296) }
{
    u64::from(a + b + c + e)
}

// The sum of a day whose readings are all below 2^30: in four fourths, so that only sums of four are widened.
// Kept: one index goes over the four fourths: zipped slices take 172 instructions a usual day in place of 159, and
// chunks of four readings 177.
fn sum_fourths(day: &[u32]) -> u64
    requires { FewReadings day.now × (length day.now % 4 ≡ 0) × (highest_of day.now < four_end) }
    ensures { DaySum day.now result }
{
    let n = day.len() / 4;
    let mut sum: u64 = 0;
    for p in 0..n {
        sum += sum_four(day[p], day[n + p], day[2 * n + p], day[3 * n + p]);
    }
    sum
}

// The sum of any day, reading by reading.
fn sum_each(day: &[u32]) -> u64
    requires { FewReadings day.now }
    ensures { DaySum day.now result }
{
    let mut sum = 0;
    for reading in day {
        sum += u64::from(*reading);
    }
    sum
}

// The sum of a day with this highest reading: by fourths where it has them and is below 2^30, as legal readings are.
fn sum_of(day: &[u32], peak: u32) -> u64
    requires { FewReadings day.now × (peak ≡ highest_of day.now) }
    ensures { DaySum day.now result }
{
    if peak < FOUR_END {
        if day.len() % 4 == 0 {
            return sum_fourths(day);
        }
    }
    sum_each(day)
}

// Highest reading and sum of a day.
fn tops_of(day: &[u32]) -> Tops
    requires { FewReadings day.now }
    ensures { (result ≡ tops_of day.now) × (result.sum ≤ day_most) }
{
    let peak = peaks::highest(day);
    let sum = sum_of(day, peak);
    Tops { peak, sum }
}

// The mask of a quarter: all ones where it counts, else 0.
fn mask_if(set: bool) -> u32
    ensures { result ≡ number_if set all_ones }
{
    if set { u32::MAX } else { 0 }
}

// The row as 96 masks, all ones where a quarter counts: as wide as a reading, so that none has to be widened for each.
// What a row says of more than a day's 96 quarters is passed over.
fn masks_of(row: &[bool]) -> [u32; answers::DAY_QUARTERS]
    ensures { result ≡ masks_of row.now }
{
    let mut out = [0; answers::DAY_QUARTERS];
    let end = row.len().min(answers::DAY_QUARTERS);
    for (q, set) in row[..end].iter().enumerate() {
        out[q] = mask_if(*set);
    }
    out
}

// Is some mask not 0? The loop has no way out before its end, so that it costs next to nothing.
fn some_left(masks: &[u32; answers::DAY_QUARTERS]) -> bool
    ensures { result ≡ some_left masks.now }
{
    let mut any = false;
    for mask in masks {
        any |= 0 < *mask;
    }
    any
}

// The highest reading of a usual day that the masks leave: mask p is for position p.
fn masked_usual(masks: &[u32; answers::DAY_QUARTERS], day: &[u32]) -> u32
    requires { length day.now ≡ day_quarters }
    ensures { result ≡ masked_high masks.now day.now }
{
    let mut high = 0;
    for (reading, mask) in day.iter().zip(masks) {
        high = high.max(*reading & *mask);
    }
    high
}

// Is quarter q, from 0, set in a row? Behind the row's end nothing is set.
fn is_in(row: &[bool], q: usize) -> bool
    ensures { result ≡ get_or row.now q false }
{
    row.get(q).copied().unwrap_or(false)
}

// The first position of a usual day that counts and whose reading is `high`. Behind the row's end nothing counts.
fn first_in(row: &[bool], day: &[u32], high: u32) -> Option<usize>
    ensures { result ≡ position (λ (pair : Bool × ℕ). pair.0 && eqb pair.1 high) (zip row.now day.now) }
{
    row.iter()
        .zip(day)
        .position(|(set, reading)| *set & (*reading == high))
}

// The figures with a day's highest reading and sum taken in, H as it was.
fn plain_day(f: Figures, day: &[u32]) -> Figures
    requires { FewReadings day.now × SumFits f }
    ensures { result ≡ plainly f (tops_of day.now) }
{
    let t = tops_of(day);
    Figures {
        peak: f.peak.max(t.peak),
        sum: f.sum + t.sum,
        any: f.any,
        high: f.high,
        day: f.day,
        quarter: f.quarter,
    }
}

// The figures with H at a position of day d, or as they are where there is none.
fn high_at(f: Figures, d: u16, day: &[u32], at: Option<usize>) -> Figures
    requires { Numbered d × Sized day.now × IfSome at (λ p. p < length day.now) }
    ensures { result ≡ high_at f d day.now (unwrap_or at (length day.now)) }
{
    let n = day.len();
    let Some(at) = at else {
        return f;
    };
    Figures {
        peak: f.peak,
        sum: f.sum,
        any: true,
        high: day[at],
        day: d + 1,
        quarter: readings::quarter_in(n, at) as u8,
    }
}

// A value, or the one before it: no jump depends on a reading.
fn pick<T: Copy>(new: bool, value: T, before: T) -> T
    ensures { result ≡ cond new value before }
{
    if new { value } else { before }
}

// Where in a day H comes to stand, by the row where the flag is set, if it moves. Reading by reading, for the two
// Sundays of the clock change: so all loops over a usual day have 96 turns. (In numbers alone: figures that go through
// a loop are copied every day. And so short that both callers have it laid into them.)
fn new_high(f: Figures, flag: bool, row: &[bool], day: &[u32]) -> Option<usize>
    ensures { HighAt f (row_if flag row.now) day.now (unwrap_or result (length day.now))
        × IfSome result (λ p. p < length day.now) }
{
    let n = day.len();
    let mut any = f.any;
    let mut high = f.high;
    let mut at = None;
    for (p, v) in day.iter().enumerate() {
        let counts = flag & is_in(row, readings::quarter_in(n, p));
        let new = counts & (!any | (high < *v));
        any |= counts;
        high = pick(new, *v, high);
        at = pick(new, Some(p), at);
    }
    at
}

// A row with its masks, and whether one of them is not 0: made once for all days that go by the row.
#[derive(Drop)]
struct MaskedRow<'a> {
    quarters: &'a [bool],
    masks: [u32; answers::DAY_QUARTERS],
    some: bool,
    ghost masked: { masks ≡ masks_of quarters.now },
    ghost tells: { some ≡ some_left masks },
}

impl<'a> MaskedRow<'a> {
    fn new(quarters: &'a [bool]) -> MaskedRow<'a>
        ensures { result.quarters.now ≡ quarters.now }
    {
        let masks = masks_of(quarters);
        let some = some_left(&masks);
        MaskedRow {
            quarters,
            masks,
            some,
        }
    }

    // The figures with a usual day d taken in, of which some quarter may count; `next` has its highest reading and sum.
    fn take_masked(&self, f: Figures, next: Figures, d: u16, day: &[u32]) -> Figures
        requires { Fits f d day.now next }
        ensures { result ≡ with_day f (length day.now) d self.now.quarters.now (alone day.now) }
    {
        let high = masked_usual(&self.masks, day);
        if f.any & (high <= f.high) {
            return next;
        }
        high_at(next, d, day, first_in(self.quarters, day, high))
    }

    // The same where the flag is set; where no mask is, there is nothing to look for. (`next` is made by the caller: so
    // this function is small enough to be laid into both callers.)
    fn take_fit(&self, f: Figures, next: Figures, d: u16, flag: bool, day: &[u32]) -> Figures
        requires { Fits f d day.now next }
        ensures { result ≡ with_day f (length day.now) d (row_if flag self.now.quarters.now) (alone day.now) }
    {
        if flag & self.some {
            return self.take_masked(f, next, d, day);
        }
        next
    }

    // The figures with any day d taken in, a usual one by the masks.
    fn take_any(&self, f: Figures, d: u16, flag: bool, day: &[u32]) -> Figures
        requires { Numbered d × Sized day.now × SumFits f }
        ensures { result ≡ with_day f (length day.now) d (row_if flag self.now.quarters.now) (alone day.now) }
    {
        if day.len() != answers::DAY_QUARTERS {
            let other = plain_day(f, day);
            return high_at(other, d, day, new_high(f, flag, self.quarters, day));
        }
        let next = plain_day(f, day);
        self.take_fit(f, next, d, flag, day)
    }
}

// 13: are there no n days from day `from` on, or is the sum without room for so many?
fn days_out(days: u16, from: u16, n: usize, sum: u64) -> bool
    ensures { result ≡ days_out days from n sum }
{
    if days < from {
        return true;
    }
    if ((days - from) as usize) < n {
        return true;
    }
    u64::MAX - DAY_MOST * (n as u64) < sum
}

// The figures with a Sunday of the clock change taken in, or 4 for a day that is not as long as one. By a row without
// quarters it is done with after the sum, as every Sunday of a year is.
fn take_other(f: Figures, d: u16, row: &[bool], day: &[u32]) -> Result<Figures, TakingRefusal>
    requires { Numbered d × SumFits f × (length day.now ≡ day_quarters → ⊥) }
    ensures { result ≡ cond (no_day (length day.now)) (Err WrongLength)
        (Ok (with_day f (length day.now) d row.now (alone day.now))) }
{
    if (day.len() != readings::LEAST_READINGS) & (day.len() != readings::MOST_READINGS) {
        return Err(TakingRefusal::WrongLength);
    }
    let next = plain_day(f, day);
    if row.len() == 0 {
        return Ok(next);
    }
    Ok(high_at(next, d, day, new_high(f, true, row, day)))
}

// The figures with day d, from 0, taken in: position p counts where its quarter is set in the row. Refuses 13, 4 in
// this order. Highest reading and sum come first: they do not wait until it is known whether the row has quarters.
pub fn take_day(f: Figures, d: u16, row: &[bool], day: &[u32]) -> Result<Figures, TakingRefusal>
    ensures { result ≡ day_taken f d row.now day.now }
{
    if days_out(dates::MOST_DAYS as u16, d, 1, f.sum) {
        return Err(TakingRefusal::DayOut);
    }
    if day.len() != answers::DAY_QUARTERS {
        return take_other(f, d, row, day);
    }
    let next = plain_day(f, day);
    if row.len() == 0 {
        return Ok(next);
    }
    Ok(MaskedRow::new(row).take_fit(f, next, d, true, day))
}

// The figures with as many days of a whole series taken in as there are flags, from day `from` on: the row counts on
// those whose flag is set. The series has `days` days in all. Refuses 13, 4 in this order. Masks are made once for all.
pub fn take_days(
    f: Figures,
    days: u16,
    change: Change,
    from: u16,
    flags: &[bool],
    row: &[bool],
    series: &[u32],
) -> Result<Figures, TakingRefusal>
    ensures { result ≡ days_taken f days change from flags.now row.now series.now }
{
    if days_out(days, from, flags.len(), f.sum) {
        return Err(TakingRefusal::DayOut);
    }
    if series.len() != readings::span_by(change, days).start {
        return Err(TakingRefusal::WrongLength);
    }
    let masked = MaskedRow::new(row);
    let mut figures = f;
    let mut start = readings::span_by(change, from).start;
    for (k, flag) in flags.iter().enumerate() {
        let d = from + k as u16;
        let end = start + readings::len_by(change, d);
        let day = &series[start..end];
        figures = masked.take_any(figures, d, *flag, day);
        start = end;
    }
    Ok(figures)
}
