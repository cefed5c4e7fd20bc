// The module's long calls on a customer's year for a caller in Rust or C, as the benchmark makes them: the decision,
// whole and by days. Each is the called function under today's list, and no more; its promise is that function's,
// through the same definitions. It meets `customer`, specs/Answers (whole), and specs/Days (by days), each answer laid
// out by `answer_numbers`, specs/Numbers.
#![tactic(auto)]

ghost use Rattle.std.specs.Prelude.{◌≡◌};
ghost use Rattle.editions.specs.Editions.{todays};
ghost use Rattle.terms.specs.Basis.{basis};
ghost use Rattle.customer.specs.Answers.{decide_answer};
ghost use Rattle.answer_numbers.specs.Numbers.{numbers_of};
ghost use Rattle.bench_customer.specs.Days.{customer_after_days, open_days, customer_days_answer, price_list};

use answer_numbers::Numbers;
use customer_days::Customer;
use readings::Run;
use tariff::{Prices, Row};

// A price list of four numbers, low row before high row and capacity before energy (Rule 2.5).
fn prices_of(lowcapacity: u32, lowenergy: u32, highcapacity: u32, highenergy: u32) -> Prices
    ensures { result ≡ price_list lowcapacity lowenergy highcapacity highenergy }
{
    Prices {
        few: Row {
            capacity: lowcapacity,
            energy: lowenergy,
        },
        many: Row {
            capacity: highcapacity,
            energy: highenergy,
        },
    }
}

// The decision over a customer's whole series.
// Kept: eight parameters, here and in the call by days. A caller in C hands them over one by one.
#[unsafe(no_mangle)]
pub extern "C" fn bench_decide(
    sheet: &[u8],
    holidays: &[u16],
    lowcapacity: u32,
    lowenergy: u32,
    highcapacity: u32,
    highenergy: u32,
    option: bool,
    series: &[u32],
) -> Numbers
    ensures { let prices = price_list lowcapacity lowenergy highcapacity highenergy in
        let k = basis todays sheet.now holidays.now prices option in
        result ≡ numbers_of (decide_answer k series.now) }
{
    let prices = prices_of(lowcapacity, lowenergy, highcapacity, highenergy);
    let list = editions::todays();
    decision_numbers::of_decision(customer::decide(list, sheet, holidays, prices, option, series))
}

// A customer's year after every day of a series, given one by one. The loop counts days from 0, `run_part` from 1.
// Kept: a range of days. A day's part of the series is asked for by its number, and days differ in length.
fn all_customer_days(
    sheet: &[u8],
    holidays: &[u16],
    prices: Prices,
    option: bool,
    series: &[u32],
) -> Customer
    ensures { let k = basis todays sheet.now holidays.now prices option in
        result ≡ customer_after_days k series.now (open_days k) }
{
    let mut state = Customer::open(editions::todays(), sheet, holidays, prices, option).customer;
    let year = state.terms.rates.year;
    for d in 0..dates::year_days(year) {
        let day = readings::run_part(Run::Year(year), series, usize::from(d) + 1);
        state = state.day(day).customer;
    }
    state
}

// The decision over a customer's series that is given day by day.
#[unsafe(no_mangle)]
pub extern "C" fn bench_customer_days(
    sheet: &[u8],
    holidays: &[u16],
    lowcapacity: u32,
    lowenergy: u32,
    highcapacity: u32,
    highenergy: u32,
    option: bool,
    series: &[u32],
) -> Numbers
    ensures { let prices = price_list lowcapacity lowenergy highcapacity highenergy in
        let k = basis todays sheet.now holidays.now prices option in
        result ≡ numbers_of (customer_days_answer k series.now) }
{
    let prices = prices_of(lowcapacity, lowenergy, highcapacity, highenergy);
    decision_numbers::of_decision(all_customer_days(
        sheet, holidays, prices, option, series,
    ).close())
}
