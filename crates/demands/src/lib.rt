// The three demands in one place: statements in specs/, for a reader who reads no proof, and their proofs, which take
// what they need from the crates below. No code.
// Main theorems: `met` (our module meets specs/Demands, Rules 12.1 to 12.3), `nothing_else` (the demands leave no
// answer open, 13.1), `shut_out` (specs/Wrong, 13.2) and `all_hold` (specs/Cases, the cases 1 to 12 of 11.1). Parts of
// `met`: `left_as_before`, `fixed_state`, `carried` (12.1); `exactly_when`, `sheets`, `to_the_quarter_hour`,
// `days_as_whole` (12.2); `fairness` (12.3).
#![tactic(auto)]
