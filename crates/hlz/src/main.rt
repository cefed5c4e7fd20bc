// The window program: takes a grid file from standard input and prints its high-load windows, or the refusal. Nothing
// is decided here: room `drive` hands the machine of room `grid_file` what it reads, and room `grid_text` makes the
// text. What is printed is specified in `grid_text`, specs/Text, and that each input has the text of its bytes in
// `printed_proofs`, specs/Printed. Rules 10.1, 10.2 and 10.6.
#![tactic(auto)]

use std::io;

// Kept: `statement` does the same with another text: one function for both would take the call for it, with clauses.
fn main(rt: HostRuntime) -> io::Result<()> {
    let mut text = [0u8; texts::TEXT_MOST];
    let file = drive::drive(&mut rt.stdin(), editions::todays())?;
    let n = grid_text::text(file, &mut text);
    rt.write_all(&text[0..n])
}
