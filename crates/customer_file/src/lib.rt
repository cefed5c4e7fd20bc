// The customer file: its header (room `customer_head`), then the readings of the charge year. The machine that the
// statement program drives is that of room `file_machine`, over the customer's year: `want` says how many bytes come
// next, and `feed` takes them, fewer where the file has ended. It meets specs/CustomerMachine, and `fields`,
// specs/Machine; room `customer_text` makes the text that is printed. Rules 10.3 to 10.5.
// Main theorem: driven over any bytes, the machine gives what the file's bytes are answered, and that is printed (room
// `printed_proofs`, specs/Printed).
#![tactic(auto)]

ghost use Rattle.std.specs.Prelude.{◌≡◌};
ghost use Rattle.tariff.specs.Answers.{said_of};
ghost use Rattle.fields.specs.Stages.{day_stage};
ghost use Rattle.customer_days.specs.Days.{shut_customer};
ghost use Rattle.customer_file.specs.CustomerMachine.{opened_with, customer_kind};
ghost use Rattle.customer_file.specs.CustomerLaws.{customer_laws};

use customer_days::Customer;
use editions::Editions;
use fields::{Span, Stage};
use file_machine::{File, Series};
use readings::Run;
use tariff::Decision;

// The customer's year, as its file opens it and fills it.
#[derive(Clone, Copy)]
pub struct CustomerSeries {
    pub customer: Customer,
}

// A customer file that is being read.
pub type CustomerFile = File<CustomerSeries, { customer_head::CUSTOMER_HEAD_MOST }>;

// Where the machine stands after a day: it goes on where the day is taken.
// Kept: grid_file has another for a grid's refusal: each takes its own room's answer apart, by its own cases.
fn stage_of(decision: Decision) -> Stage
    ensures { result ≡ day_stage (said_of decision) }
{
    let Decision::BadReading(place) = decision else {
        let number = decision_numbers::of_decision(decision).number as u8;
        if number == 0 {
            return Stage::Going;
        }
        return Stage::Refused(number);
    };
    Stage::BadReading(place)
}

// Before the first byte: a header of zeros opens no year.
fn blank(editions: Editions) -> Customer
    ensures { result ≡ shut_customer }
{
    let head = [0; customer_head::CUSTOMER_HEAD_MOST];
    customer_opening::opened(editions, &head)
}

// After k fields: the customer's year is opened once the header's last field is taken.
fn opened_after(editions: Editions, customer: Customer, head: &[u8], k: usize) -> Customer
    ensures { result ≡ opened_with editions customer head.now k }
{
    if 0 < customer_head::span_of(head, k).width {
        return customer;
    }
    customer_opening::opened(editions, head)
}

impl Series<{ customer_head::CUSTOMER_HEAD_MOST }> for CustomerSeries {
    ghost kind = { customer_kind };

    ghost laws = { customer_laws };

    fn span_of(head: &[u8], k: usize) -> Span {
        customer_head::span_of(head, k)
    }

    fn refusal(editions: Editions, head: &[u8], k: usize) -> u8 {
        customer_head::refusal(editions, head, k)
    }

    fn fresh(editions: Editions) -> CustomerSeries {
        CustomerSeries {
            customer: blank(editions),
        }
    }

    fn opened(self, editions: Editions, head: &[u8], k: usize) -> CustomerSeries {
        CustomerSeries {
            customer: opened_after(editions, self.customer, head, k),
        }
    }

    fn run(self) -> Run {
        Run::Year(self.customer.terms.rates.year)
    }

    fn seen(self) -> u16 {
        self.customer.seen
    }

    fn day(self, day: &[u32]) -> (Stage, CustomerSeries) {
        let step = self.customer.day(day);
        (
            stage_of(step.answer),
            CustomerSeries {
                customer: step.customer,
            },
        )
    }
}
