// The header of a customer file: where its fields stand, and the number that refuses each, by the header's bytes. It
// meets specs/Header, and `fields`, specs/Layout. Fields and places count from 0. Behind the last byte there is 0, so
// that every call answers for any bytes. Rules 10.3 and 10.4.
#![tactic(auto)]

ghost use Rattle.std.specs.Prelude.{◌≡◌, not, ◌≤◌, ◌<◌, eqb};
ghost use Rattle.ranges.specs.Ranges.{number_if};
ghost use Rattle.editions.specs.declared.Editions.{Editions};
ghost use Rattle.holidays.specs.Holidays.{before};
ghost use Rattle.fields.specs.Layout.{field_at, field_span};
ghost use Rattle.customer_head.specs.Header.{holiday_count, holidays_of, holiday_out, price_fields, customer_layout};

use editions::Editions;
use fields::Span;

// A field before the holidays: where it starts, how many bytes it takes, and the number that refuses it.
#[derive(Clone, Copy)]
struct First {
    start: usize,
    width: usize,
    number: u8,
}

// How many fields stand before the holidays, and how many prices behind them; and the former, field 0 (the mark) first.
const FIRST_FIELDS: usize = 12;

const PRICE_FIELDS: usize = 4;

const FIRST: [First; FIRST_FIELDS] = [
    First {
        start: 0,
        width: 3,
        number: 12,
    },
    First {
        start: 3,
        width: 2,
        number: 12,
    },
    First {
        start: 5,
        width: 3,
        number: 12,
    },
    First {
        start: 8,
        width: 2,
        number: 12,
    },
    First {
        start: 10,
        width: 2,
        number: 1,
    },
    First {
        start: 12,
        width: 1,
        number: 2,
    },
    First {
        start: 13,
        width: 12,
        number: 12,
    },
    First {
        start: 25,
        width: 12,
        number: 12,
    },
    First {
        start: 37,
        width: 12,
        number: 12,
    },
    First {
        start: 49,
        width: 12,
        number: 12,
    },
    First {
        start: 61,
        width: 1,
        number: 12,
    },
    First {
        start: 62,
        width: 1,
        number: 3,
    },
];

// The places, from 0, of the version, the sheet with its fields, the option, the number of holidays, and the holidays.
const VERSION_AT: usize = 3;

pub const SHEET_AT: usize = 5;

const SHEET_VERSION_AT: usize = 8;

const YEAR_AT: usize = 10;

const LEVEL_AT: usize = 12;

const SEASONS_AT: usize = 13;

pub const OPTION_AT: usize = 61;

const COUNT_AT: usize = 62;

pub const HOLIDAYS_AT: usize = 63;

// How many bytes a holiday has, a price, all prices, and a header with forty holidays.
pub const HOLIDAY_BYTES: usize = 2;

const PRICE_BYTES: usize = 4;

const PRICES_SIZE: usize = 16;

pub const CUSTOMER_HEAD_MOST: usize = 159;

// How many holidays there are, at most 40: a number above 40 is refused itself.
pub fn holiday_count(head: &[u8]) -> usize
    ensures { (result ≡ holiday_count head.now) × (result ≤ 40) }
{
    let n = encoding::byte_at(head, COUNT_AT, 0) as usize;
    n.min(answers::HOLIDAYS_MOST)
}

// Where field k, from 0, stands, whatever the list of editions; behind the last field this is no byte, at the header's
// end.
pub fn span_of(head: &[u8], k: usize) -> Span
    ensures { (es : Editions) → result ≡ field_span (customer_layout es head.now) k }
{
    if k < FIRST_FIELDS {
        return Span {
            start: FIRST[k].start,
            width: FIRST[k].width,
        };
    }
    let n = holiday_count(head);
    if k < FIRST_FIELDS + n {
        return Span {
            start: HOLIDAYS_AT + HOLIDAY_BYTES * (k - FIRST_FIELDS),
            width: HOLIDAY_BYTES,
        };
    }
    let prices = HOLIDAYS_AT + HOLIDAY_BYTES * n;
    let j = k - FIRST_FIELDS - n;
    if j < PRICE_FIELDS {
        return Span {
            start: prices + PRICE_BYTES * j,
            width: PRICE_BYTES,
        };
    }
    Span {
        start: prices + PRICES_SIZE,
        width: 0,
    }
}

// Is field k, from 0, one of the twelve before the holidays, refused?
fn first_fails(editions: Editions, head: &[u8], k: usize) -> bool
    requires { k < 12 }
    ensures { result ≡ not (eqb ((customer_layout editions head.now).refusal k) 0) }
{
    match k {
        0 => encoding::other_mark(head, 0, b"CUS"),
        1 => encoding::two_at(head, VERSION_AT) != encoding::FORMAT_VERSION,
        2 => encoding::other_mark(head, SHEET_AT, b"HLZ"),
        3 => encoding::two_at(head, SHEET_VERSION_AT) != encoding::FORMAT_VERSION,
        4 => editions::year_out(editions, encoding::two_at(head, YEAR_AT)),
        5 => answers::level_out(encoding::byte_at(head, LEVEL_AT, 0)),
        10 => 1 < encoding::byte_at(head, OPTION_AT, 0),
        11 => answers::HOLIDAYS_MOST < encoding::byte_at(head, COUNT_AT, 0) as usize,
        season => {
            let edition = editions::pick(editions, encoding::two_at(head, YEAR_AT));
            sheet_read::season_full(edition, head, SEASONS_AT + 12 * (season - 6))
        }
    }
}

// The holiday before holiday j, from 0; 0 before the first, so that the first may be any day from 1 on.
fn holiday_before(head: &[u8], j: usize) -> u16
    requires { j < holiday_count head.now }
    ensures { result ≡ before (holidays_of head.now) j }
{
    if j == 0 {
        return 0;
    }
    encoding::two_at(head, HOLIDAYS_AT + HOLIDAY_BYTES * (j - 1))
}

// The number that refuses holiday j, from 0: 3 where it is not behind the one before it or not in the year (Rule 2.6),
// else 0.
fn holiday_no(head: &[u8], j: usize) -> u8
    requires { j < holiday_count head.now }
    ensures { result ≡ number_if (holiday_out head.now j) 3 }
{
    let day = encoding::two_at(head, HOLIDAYS_AT + HOLIDAY_BYTES * j);
    let last = holiday_before(head, j);
    field_steps::number_if(
        holidays::bad_holiday(encoding::two_at(head, YEAR_AT), last, day),
        3,
    )
}

// The number that refuses price j, from 0, at place i: 6 above its limit, else 0. In each row the capacity price comes
// first, then the energy price. Behind the last price there is none.
fn price_no(head: &[u8], i: usize, j: usize) -> u8
    ensures { result ≡ (field_at (price_fields head.now) j).refused_at i }
{
    if PRICE_FIELDS <= j {
        return 0;
    }
    let price = encoding::four_at(head, i);
    if j % 2 == 0 {
        return field_steps::number_if(answers::capacity_out(price), 6);
    }
    field_steps::number_if(answers::energy_out(price), 6)
}

// The number that refuses field k, from 0; 0 where it passes, and where there is no such field.
pub fn refusal(editions: Editions, head: &[u8], k: usize) -> u8
    ensures { result ≡ (customer_layout editions head.now).refusal k }
{
    if k < FIRST_FIELDS {
        return field_steps::number_if(first_fails(editions, head, k), FIRST[k].number);
    }
    let n = holiday_count(head);
    if k < FIRST_FIELDS + n {
        return holiday_no(head, k - FIRST_FIELDS);
    }
    price_no(head, span_of(head, k).start, k - FIRST_FIELDS - n)
}
