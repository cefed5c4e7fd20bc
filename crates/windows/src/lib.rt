// The high-load windows of four curves: the quarters above an edition's line, in a season at most as many as its limit,
// forty today (Rules 4.4 and 4.5). It meets specs/Chosen; how it finds where to cut a season is in specs/Cuts. Quarters
// count from 0.
// Main theorem: under every edition a season keeps exactly the smaller of the limit and the number above the line, and
// no kept quarter is lower than one left out (`kept_count`, `none_lower`, proofs/Kept).
#![tactic(auto)]

ghost use Rattle.std.specs.Prelude.{◌≡◌, ℕ, ◌+◌, ◌-◌, ◌<◌, ◌≤◌, ltb, length, get_or};
ghost use Rattle.ranges.specs.Ranges.{bit, table};
ghost use Rattle.answers.specs.Ruling.{day_quarters};
ghost use Rattle.windows.specs.Chosen.{kept_of, chosen_of};
ghost use Rattle.windows.specs.Cuts.{line_of, higher_than, MostBetween, kept_at};

use answers::Edition;

// Two limits between which a season is cut.
#[derive(Clone, Copy)]
struct Limits {
    low: u32,
    high: u32,
}

// Where a season is cut: the quarters above the limit are kept, and the first `equals` of those that are equal to it.
#[derive(Clone, Copy)]
struct Cut {
    limit: u32,
    equals: usize,
}

// The line as a value: what is higher is above the line. It may be too high for a curve's value, since an edition that
// somebody put together may have a line of 255 percent.
fn line_of(edition: Edition, peak: u32) -> u64
    ensures { result ≡ line_of edition peak }
{
    u64::from(edition.line) * u64::from(peak) / answers::WHOLE_SHARE
}

// How many quarters are higher than a limit.
fn count_above(curve: &[u32; answers::DAY_QUARTERS], limit: u32) -> usize
    ensures { result ≡ higher_than curve.now limit }
{
    let mut n: u32 = 0;
    for value in curve {
        n += u32::from(limit < *value);
    }
    n as usize
}

// Two limits that are nearer, `most` quarters or more above the low one and no more than `most` above the high one: the
// value in the middle is one of them. Where just so many are above it, the search is over.
fn nearer(curve: &[u32; answers::DAY_QUARTERS], most: usize, between: Limits) -> Limits
    requires { (between.low + 1 < between.high) × MostBetween curve.now most between.low between.high }
    ensures { (between.low ≤ result.low) × (result.low < result.high) × (result.high - result.low < between.high - between.low)
        × MostBetween curve.now most result.low result.high }
{
    let Limits { low, high } = between;
    let middle = low + (high - low) / 2;
    let n = count_above(curve, middle);
    if n < most {
        return Limits { low, high: middle };
    }
    if most < n {
        return Limits { low: middle, high };
    }
    Limits {
        low: middle - 1,
        high: middle,
    }
}

// A limit that no more than `most` quarters are above, while as many or more are above the value before it: the way
// between two limits is halved.
fn limit_between(curve: &[u32; answers::DAY_QUARTERS], most: usize, between: Limits) -> u32
    requires { (between.low < between.high) × MostBetween curve.now most between.low between.high }
    ensures { (between.low < result) × MostBetween curve.now most (result - 1) result }
{
    let mut limits = between;
    while 1 < limits.high - limits.low {
        limits = nearer(curve, most, limits);
    }
    limits.high
}

// The cut that keeps what is above a limit.
fn above(limit: u32) -> Cut
    ensures { (result.limit ≡ limit) × (result.equals ≡ 0) }
{
    Cut { limit, equals: 0 }
}

// Where a season is cut: at the line, or higher where more quarters are above it than the edition's limit. No value is
// above a line that is higher than all that 32 bits hold.
fn cut_of(edition: Edition, peak: u32, curve: &[u32; answers::DAY_QUARTERS]) -> Cut
    ensures { table (kept_at curve.now result.limit result.equals) day_quarters ≡ kept_of edition peak curve.now }
{
    let most = usize::from(edition.limit);
    let Ok(line) = u32::try_from(line_of(edition, peak)) else {
        return above(peaks::highest(curve));
    };
    if count_above(curve, line) <= most {
        return above(line);
    }
    let between = Limits {
        low: line,
        high: peaks::highest(curve),
    };
    let limit = limit_between(curve, most, between);
    Cut {
        limit,
        equals: most - count_above(curve, limit),
    }
}

// Marks the quarters that are higher than a limit, and no others.
fn mark_above(
    out: &mut [bool; answers::DAY_QUARTERS],
    curve: &[u32; answers::DAY_QUARTERS],
    limit: u32,
)
    requires { length out.old ≡ day_quarters }
    ensures { out.new ≡ table (λ (q : ℕ). ltb limit (get_or curve.now q 0)) day_quarters }
{
    for (q, value) in curve.iter().enumerate() {
        out[q] = limit < *value;
    }
}

// Adds the first `equals` of the quarters that are equal to the limit.
fn add_equals(
    out: &mut [bool; answers::DAY_QUARTERS],
    curve: &[u32; answers::DAY_QUARTERS],
    limit: u32,
    equals: usize,
)
    requires { out.old ≡ table (λ (q : ℕ). ltb limit (get_or curve.now q 0)) day_quarters }
    ensures { out.new ≡ table (kept_at curve.now limit equals) day_quarters }
{
    let mut n: usize = 0;
    for (q, value) in curve.iter().enumerate() {
        let equal = *value == limit;
        out[q] |= equal & (n < equals);
        n += usize::from(equal);
    }
}

// Marks the kept quarters of a season, and no others. The curve is read where it stands: nothing of it is copied or put
// in order, and no memory depends on how many quarters are kept at the most.
fn keep(
    out: &mut [bool; answers::DAY_QUARTERS],
    edition: Edition,
    peak: u32,
    curve: &[u32; answers::DAY_QUARTERS],
)
    requires { length out.old ≡ day_quarters }
    ensures { out.new ≡ kept_of edition peak curve.now }
{
    let cut = cut_of(edition, peak, curve);
    mark_above(&mut *out, curve, cut.limit);
    if 0 < cut.equals {
        add_equals(&mut *out, curve, cut.limit, cut.equals);
    }
}

// The windows of four curves by an edition, for any peak: by season and by quarter, both from 0. Each season's
// curve is lent on.
// Kept: four calls, since a loop is unrolled with all that it calls, and takes 400 bytes of stack more.
pub fn chosen(
    edition: Edition,
    peak: u32,
    curves: &[[u32; answers::DAY_QUARTERS]; sheet::SEASONS],
) -> [[bool; answers::DAY_QUARTERS]; sheet::SEASONS]
    ensures { result ≡ chosen_of edition peak curves.now }
{
    let mut out = [[false; answers::DAY_QUARTERS]; sheet::SEASONS];
    keep(&mut out[0], edition, peak, &curves[0]);
    keep(&mut out[1], edition, peak, &curves[1]);
    keep(&mut out[2], edition, peak, &curves[2]);
    keep(&mut out[3], edition, peak, &curves[3]);
    out
}
