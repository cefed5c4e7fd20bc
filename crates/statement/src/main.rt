// The statement program: takes a customer file from standard input and prints the decision, or the refusal. Nothing is
// decided here: room `drive` hands the machine of room `customer_file` what it reads, and room `customer_text` makes
// the text. What is printed is specified in `customer_text`, specs/Text, and that each input has the text of its bytes
// in `printed_proofs`, specs/Printed. Rules 10.1, 10.3 and 10.7.
#![tactic(auto)]

use std::io;

// Kept: `hlz` does the same with another text: one function for both would take the call for it, with clauses.
fn main(rt: HostRuntime) -> io::Result<()> {
    let mut text = [0u8; texts::TEXT_MOST];
    let file = drive::drive(&mut rt.stdin(), editions::todays())?;
    let n = customer_text::text(file, &mut text);
    rt.write_all(&text[0..n])
}
