// The figures of a customer's year, M, S and H with its place: the definitions (specs/Figures) and their laws, no code.
// Rules 6.3 to 6.5.
// Main theorem: a day's record taken in gives the figures of one day more (`taken_more`, proofs/Taken).
#![tactic(auto)]
