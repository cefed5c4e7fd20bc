// Runs the module's calls on records from standard input and prints what they answer: editions, dates, periods,
// holidays, calendar, sheet_write, sheet_read, charges, decision, grid and customer. Nothing here is decided or proved
// of them. A record begins with its kind, a byte; the file of its module says what follows:
//   E      lists.rt: an operation on the list of editions that the records after it go by; at first it is today's
//   Y L D  calendars.rt: a year, a holiday list, a day
//   W R    sheets.rt: a sheet written, a sheet read
//   T      tariffs.rt: a year's figures judged
//   G C    series.rt: a series by its recipe, then calls on it, of the grid (grids.rt) or of a customer (customers.rt)
// Numbers have their high byte first. tests/cases.py makes the records, and what must come of them by docs/RULES.md.
#![tactic(auto)]

mod calendars;
mod customers;
mod grids;
mod input;
mod lists;
mod output;
mod series;
mod session;
mod sheets;
mod tariffs;

use session::Session;
use std::io;
use std::io::Read;

// No more records than this are taken.
const RECORDS_MOST: u32 = 100_000;

// One record: false where the input is at its end.
fn one_record<P: Print, R: Read>(session: &mut Session<'_, P, R>) -> io::Result<bool> {
    let kind = session.byte()?;
    match kind {
        b'E' => session.one_operation()?,
        b'Y' | b'L' | b'D' => session.one_calendar(kind)?,
        b'W' => session.one_writing()?,
        b'R' => session.one_reading()?,
        b'T' => session.one_set()?,
        b'G' | b'C' => session.one_series(kind)?,
        _ => return Ok(false),
    }
    Ok(true)
}

fn main(rt: HostRuntime) -> io::Result<()> {
    let mut session = Session {
        rt: &rt,
        input: rt.stdin(),
        editions: editions::todays(),
    };
    for _ in 0..RECORDS_MOST {
        if !one_record(&mut session)? {
            return Ok(());
        }
    }
    Ok(())
}
