// The list of editions that calls go by: an empty one, the one with today's edition, loading a record into a list, and
// the record that holds for a year. It meets specs/Editions and specs/Loading. Rules 2.1, 2.7 and 9.6.
// Main theorem: a list that loadings made has at most one record for a year (`picked_one`, proofs/Lists).
#![tactic(auto)]

ghost use Rattle.std.specs.Prelude.{◌≡◌, ◌≤◌};
ghost use Rattle.answers.specs.Edition.{today};
ghost use Rattle.editions.specs.Editions.{editions_most, no_editions, todays, loaded_in, edition_of, year_out};
ghost use Rattle.editions.specs.Loading.{said_of_loading, bad_years, bad_shares, bad_numbers, bad_edition, meets, overlaps, load_answer, loaded_with};

use answers::{Edition, WHOLE_SHARE};

// How many records a list may have.
pub const EDITIONS_MOST: usize = 8;

// The share of M that each level must keep out of the windows today, in percent. Levels count from 1: level 1 has place
// 0. Rule 2.3.
const SHARES: [u8; 7] = [5, 10, 10, 20, 20, 30, 30];

// The most that a record may have: the least move, in W; the least reduction, in cent; and the hours of use. A limit is
// at most a day's quarters, and a share at most all of the whole.
const MOVE_MOST: u32 = 1_000_000_000;

const REDUCTION_MOST: u32 = 1_000_000;

const HOURS_MOST: u16 = 8_784;

// A list of editions: how many records are loaded, and the places for them, the first at place 0. A list that no call
// handed back has an answer, too: its first eight records count at most.
// Kept: a count beside eight places: a list of any count has an answer (Rule 9.6), and an invariant would shut it out.
#[derive(Clone, Copy)]
pub struct Editions {
    pub count: u8,
    pub records: [Edition; EDITIONS_MOST],
}

// The answer 22: a record is not loaded.
#[derive(Clone, Copy, PartialEq, Eq)]
pub struct NotLoaded;

// The edition that holds today.
pub fn today() -> Edition
    ensures { result ≡ today }
{
    Edition {
        first: 2014,
        last: 2028,
        line: 95,
        limit: 40,
        shares: SHARES,
        least_move: 100_000,
        floor: 20,
        least_reduction: 50_000,
        hours: 2_500,
    }
}

// A list without a record.
pub fn none() -> Editions
    ensures { result ≡ no_editions }
{
    let records = [answers::NO_EDITION; EDITIONS_MOST];
    Editions { count: 0, records }
}

// The list that has today's edition first, and no other.
pub fn todays() -> Editions
    ensures { result ≡ todays }
{
    let mut records = [answers::NO_EDITION; EDITIONS_MOST];
    records[0] = today();
    Editions { count: 1, records }
}

// How many records of a list count: never more than eight.
fn loaded_in(editions: Editions) -> usize
    ensures { (result ≡ loaded_in editions) × (result ≤ editions_most) }
{
    EDITIONS_MOST.min(usize::from(editions.count))
}

// The record that holds for a year, the first if there are several; the edition of no year where there is none. Any
// list and any year have an answer.
pub fn pick(editions: Editions, year: u16) -> Edition
    ensures { result ≡ edition_of editions year }
{
    for record in &editions.records[..loaded_in(editions)] {
        if !answers::lacks_year(*record, year) {
            return *record;
        }
    }
    answers::NO_EDITION
}

// Has a year no edition (answer 1)? Any list and any year have an answer.
pub fn year_out(editions: Editions, year: u16) -> bool
    ensures { result ≡ year_out editions year }
{
    answers::lacks_year(pick(editions, year), year)
}

// Is a share above 100 percent?
fn bad_shares(shares: [u8; 7]) -> bool
    ensures { result ≡ bad_shares shares }
{
    shares.iter().any(|share| WHOLE_SHARE < u64::from(*share))
}

// Does a record begin before 2014, end before it begins, or end behind 2060?
fn bad_years(edition: Edition) -> bool
    ensures { result ≡ bad_years edition }
{
    (edition.first < answers::EDITIONS_FROM)
        | (edition.last < edition.first)
        | (answers::EDITIONS_TO < edition.last)
}

// Is a number of a record, but for years and shares, out of its range?
fn bad_numbers(edition: Edition) -> bool
    ensures { result ≡ bad_numbers edition }
{
    (edition.limit < 1)
        | (answers::DAY_QUARTERS < usize::from(edition.limit))
        | (WHOLE_SHARE < u64::from(edition.line))
        | (WHOLE_SHARE < u64::from(edition.floor))
        | (MOVE_MOST < edition.least_move)
        | (REDUCTION_MOST < edition.least_reduction)
        | (HOURS_MOST < edition.hours)
}

// Is a record out of its ranges, or does it end before it begins?
fn bad_edition(edition: Edition) -> bool
    ensures { result ≡ bad_edition edition }
{
    bad_years(edition) | bad_shares(edition.shares) | bad_numbers(edition)
}

// Does each of two records begin no later than the other ends?
fn do_meet(a: Edition, b: Edition) -> bool
    ensures { result ≡ meets a b }
{
    (a.first <= b.last) & (b.first <= a.last)
}

// Does a record overlap one that is loaded?
fn do_overlap(editions: Editions, edition: Edition) -> bool
    ensures { result ≡ overlaps editions edition }
{
    editions.records[..loaded_in(editions)]
        .iter()
        .any(|record| do_meet(*record, edition))
}

impl Editions {
    // Loads a record behind the others. Refuses 22 for a ninth one, for one out of its ranges, for one that ends before
    // it begins, and for one that overlaps a loaded one; then the list stays as it was. Any list and any record have an
    // answer.
    pub fn load(&mut self, edition: Edition) -> Result<(), NotLoaded>
        ensures { (said_of_loading result ≡ load_answer self.old edition) × (self.new ≡ loaded_with self.old edition) }
    {
        let n = usize::from(self.count);
        if EDITIONS_MOST <= n {
            return Err(NotLoaded);
        }
        if bad_edition(edition) | do_overlap(*self, edition) {
            return Err(NotLoaded);
        }
        self.records[n] = edition;
        self.count += 1;
        Ok(())
    }
}
