// The day program: takes dates from standard input, one to a line, the day asked for and then the listed holidays, and
// prints why that day is free, or that it carries windows. Nothing is decided here: what is printed is specified in
// `day_text`, specs/Text. Rules 10.9 to 10.11.
#![tactic(auto)]

use std::io;

// More than the day asked for and every day of a leap year. Of a longer input the last line is cut off here, so that it
// is no dates at all.
const INPUT_MOST: usize = 4096;

fn main(rt: HostRuntime) -> io::Result<()> {
    let mut input = [0u8; INPUT_MOST];
    let n = inputs::read_full(&mut rt.stdin(), &mut input)?;
    let mut text = [0u8; texts::TEXT_MOST];
    let m = day_text::text(&input[0..n], &mut text);
    rt.write_all(&text[0..m])
}
