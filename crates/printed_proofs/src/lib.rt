// What the two programs print, Rules 10.4 to 10.7: driven over any bytes, the machine of a file prints what the file's
// bytes are answered (specs/Printed; `windows_printed_law` in proofs/Grid, `statement_printed_law` in
// proofs/Customer). And nothing is decided twice: a field that is refused has the number that the opening would give
// (`grid_once` and `customer_once` in proofs/Refused). And the examples of Rules 10.6 and 10.7, case 12 with them,
// from their series and from their files' bytes (specs/Examples; `examples` in proofs/Examples). No code.
#![tactic(auto)]
