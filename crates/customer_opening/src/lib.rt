// The customer's year that the header of a customer file opens, by the header's bytes. It meets specs/Opening. Behind
// the last byte there is 0, so that the call answers for any bytes. Rules 9.5 and 10.3.
#![tactic(auto)]

ghost use Rattle.std.specs.Prelude.{◌≡◌, take};
ghost use Rattle.customer_head.specs.Header.{holiday_count, holidays_of, prices_in};
ghost use Rattle.customer_opening.specs.Opening.{opened_in};

use customer_days::Customer;
use editions::Editions;
use tariff::{Prices, Row};

// The holidays, with 0 behind the last.
fn holidays_of(head: &[u8]) -> [u16; answers::HOLIDAYS_MOST]
    ensures { take (holiday_count head.now) result ≡ holidays_of head.now }
{
    let mut out = [0; answers::HOLIDAYS_MOST];
    let n = customer_head::holiday_count(head);
    for (j, day) in out[..n].iter_mut().enumerate() {
        *day = encoding::two_at(
            head,
            customer_head::HOLIDAYS_AT + customer_head::HOLIDAY_BYTES * j,
        );
    }
    out
}

// The prices: the low row's for capacity, the low row's for energy, then both of the high row (Rule 10.3).
fn prices_of(head: &[u8]) -> Prices
    ensures { result ≡ prices_in head.now }
{
    let at = customer_head::HOLIDAYS_AT
        + customer_head::HOLIDAY_BYTES * customer_head::holiday_count(head);
    let few = Row {
        capacity: encoding::four_at(head, at),
        energy: encoding::four_at(head, at + 4),
    };
    let many = Row {
        capacity: encoding::four_at(head, at + 8),
        energy: encoding::four_at(head, at + 12),
    };
    Prices { few, many }
}

// The customer's year that the header opens. Where its sheet (one that is cut off, too), its holidays or its prices are
// refused, this is the fixed state of a refused opening (Rule 9.5).
pub fn opened(editions: Editions, head: &[u8]) -> Customer
    ensures { result ≡ opened_in editions head.now }
{
    let n = customer_head::holiday_count(head);
    let list = holidays_of(head);
    let prices = prices_of(head);
    let option = encoding::byte_at(head, customer_head::OPTION_AT, 0) == 1;
    let from = customer_head::SHEET_AT.min(head.len());
    let to = customer_head::OPTION_AT.min(head.len());
    let step = Customer::open(editions, &head[from..to], &list[..n], prices, option);
    step.customer
}
