// What the day program prints: why a day is free, by its date and the dates of the listed holidays, as bytes. It meets
// specs/Asked and specs/Text. The call writes its whole text at the start of a lent buffer and answers the text's
// length; where the buffer is too short, it writes nothing and answers 0. Lines and places count from 0. Rules 10.9 to
// 10.11.
#![tactic(auto)]

ghost use Rattle.std.specs.Prelude.{◌≡◌, ◌+◌, ◌≤◌, ◌<◌, length, take};
ghost use Rattle.calendar.specs.Answer.{said_of_day};
ghost use Rattle.day_kinds.specs.Kinds.{kind_code};
ghost use Rattle.texts.specs.Text.{Put};
ghost use Rattle.day_text.specs.Asked.{misfits, no_dates, two_digits, year_at, day_at, no_such_date, listed_at, list_count, listed_days, why_answer};
ghost use Rattle.day_text.specs.Text.{day_line, why_text};
ghost use Rattle.day_text.specs.Text.{weekday_name as name_of, kind_word as word_of};

use calendar::DayRefusal;
use day_kinds::DayKind;
use texts::Writer;

// The form of a line, where 0 stands for any digit, and how many bytes it has; of these the date, without the line
// feed.
const LINE_SIZE: usize = 11;

const FORM: [u8; LINE_SIZE] = [
    b'0', b'0', b'0', b'0', b'-', b'0', b'0', b'-', b'0', b'0', b'\n',
];

const DATE_SIZE: usize = 10;

// So many bytes are enough for the line of any day.
const LINE_MOST: usize = 40;

// One holiday more than a list may have.
const LISTED_MOST: usize = answers::HOLIDAYS_MOST + 1;

// Does a byte not fit the form's byte?
fn misfit(form: u8, byte: u8) -> bool
    ensures { result ≡ misfits form byte }
{
    if form == b'0' {
        !byte.is_ascii_digit()
    } else {
        byte != form
    }
}

// Is the input no dates at all?
fn no_dates(b: &[u8]) -> bool
    ensures { result ≡ no_dates b.now }
{
    if b.is_empty() || b.len() % LINE_SIZE != 0 {
        return true;
    }
    for (i, &byte) in b.iter().enumerate() {
        if misfit(FORM[i % LINE_SIZE], byte) {
            return true;
        }
    }
    false
}

// The number of the two digits `off` places behind place `at`.
fn two_digits(b: &[u8], at: usize, off: usize) -> u16
    requires { off < 10 }
    ensures { (result ≡ two_digits b.now (at + off)) × (result < 166) }
{
    let tens = u16::from(encoding::byte_at(b, at, off) % 16);
    let ones = u16::from(encoding::byte_at(b, at, off + 1) % 16);
    10 * tens + ones
}

// The year of a line that begins at place `at`.
fn year_at(b: &[u8], at: usize) -> u16
    ensures { result ≡ year_at b.now at }
{
    100 * two_digits(b, at, 0) + two_digits(b, at, 2)
}

// The number of its day in that year, from 1; 0 where the year does not have the date.
// Kept: 0 and no Option, as `day_at` (Asked) and `dates::day_number` have it.
fn day_at(b: &[u8], at: usize) -> u16
    ensures { result ≡ day_at b.now at }
{
    dates::day_number(year_at(b, at), two_digits(b, at, 5), two_digits(b, at, 8))
}

// Does a line have a date that its year does not have?
fn no_such_date(b: &[u8]) -> bool
    ensures { result ≡ no_such_date b.now }
{
    (0..b.len() / LINE_SIZE).any(|k| day_at(b, LINE_SIZE * k) == 0)
}

// A listed day of the year asked for; 0 for a date of another year.
fn listed_at(b: &[u8], at: usize) -> u16
    ensures { result ≡ listed_at b.now at }
{
    if year_at(b, at) == year_at(b, 0) {
        day_at(b, at)
    } else {
        0
    }
}

// How many listed days are taken: one more than a list may have is enough.
fn list_count(b: &[u8]) -> usize
    ensures { (result ≡ list_count b.now) × (result < 42) }
{
    let listed = (b.len() / LINE_SIZE).saturating_sub(1);
    listed.min(LISTED_MOST)
}

// The listed days, with 0 behind the last.
fn listed_days(b: &[u8]) -> [u16; LISTED_MOST]
    ensures { take (list_count b.now) result ≡ listed_days b.now }
{
    let mut out = [0; LISTED_MOST];
    let n = list_count(b);
    for (j, day) in out[..n].iter_mut().enumerate() {
        *day = listed_at(b, LINE_SIZE * (j + 1));
    }
    out
}

// What is answered: 1 and 13 by the dates, else what the calendar says.
fn answer(b: &[u8]) -> Result<DayKind, DayRefusal>
    ensures { said_of_day result ≡ why_answer b.now }
{
    let year = year_at(b, 0);
    let editions = editions::todays();
    if editions::year_out(editions, year) {
        return Err(DayRefusal::YearOut);
    }
    if no_such_date(b) {
        return Err(DayRefusal::DayOut);
    }
    let n = list_count(b);
    let list = listed_days(b);
    calendar::day_kind(editions, year, &list[..n], day_at(b, 0))
}

// A weekday's name.
#[tactic(auto, using(crate::proofs::Laws::sunday), unfolding(crate::specs::Text::weekday_name))]
fn weekday_name(weekday: u8) -> &'static [u8]
    ensures { result.now ≡ name_of weekday }
{
    match weekday {
        0 => b"Monday",
        1 => b"Tuesday",
        2 => b"Wednesday",
        3 => b"Thursday",
        4 => b"Friday",
        5 => b"Saturday",
        _ => b"Sunday",
    }
}

// A kind in words.
#[tactic(auto, unfolding(crate::specs::Text::kind_word))]
fn kind_word(kind: DayKind) -> &'static [u8]
    ensures { result.now ≡ word_of (kind_code kind) }
{
    match kind {
        DayKind::Windows => b"window",
        DayKind::Weekend => b"weekend",
        DayKind::Listed => b"holiday",
        DayKind::Christmas => b"Christmas",
        DayKind::Bridge => b"bridge day",
    }
}

// The line of a day: at most 32 bytes. It is made in an array that has room for them, since nothing is written where
// `out` is too short.
fn day_line(b: &[u8], kind: DayKind, out: &mut [u8]) -> usize
    requires { 10 ≤ length b.now }
    ensures { Put 0 (day_line b.now (kind_code kind)) out.old out.new result }
{
    let mut made = [0u8; LINE_MOST];
    let mut line = Writer {
        buf: &mut made,
        at: 0,
    };
    line.add(&b[..DATE_SIZE]);
    line.add(b" ");
    line.add(weekday_name(dates::weekday(year_at(b, 0), day_at(b, 0))));
    line.add(b" ");
    line.add(kind_word(kind));
    line.add(b"\n");
    let n = line.at;
    texts::add_bytes(out, 0, &made[..n])
}

// What the day program prints for any input: the day asked for with its weekday and kind, what is wrong, or the usage.
pub fn text(b: &[u8], out: &mut [u8]) -> usize
    ensures { Put 0 (why_text b.now) out.old out.new result }
{
    if no_dates(b) {
        return texts::add_bytes(
            out,
            0,
            b"usage: dates, one to a line, as 2025-05-02: the day asked for, then the listed holidays\n",
        );
    }
    match answer(b) {
        Ok(kind) => day_line(b, kind, out),
        Err(DayRefusal::YearOut) => texts::add_bytes(
            out,
            0,
            b"REFUSED 1 the year is not one of 2014 to 2028\n",
        ),
        Err(DayRefusal::BadList) => texts::add_bytes(
            out,
            0,
            b"REFUSED 3 the holidays are not rising days of that year, 40 at most\n",
        ),
        Err(DayRefusal::DayOut) => texts::add_bytes(
            out,
            0,
            b"REFUSED 13 a year does not have the date\n",
        ),
    }
}
