// A file that is read field by field and day by day, whatever its header: definitions and laws, no code. The specs say
// what any file is answered by its bytes (specs/Layout, specs/Common, specs/Series, specs/File), and what a machine
// does that is handed these bytes piece by piece (specs/Machine, specs/Stages); that the one computes the other is
// proved in proofs/Driven. Rules 10.1, 10.4 and 10.5.
#![tactic(auto)]

use answers::Place;

// How many bytes a reading has.
pub const READING_BYTES: usize = 4;

// Where a field of a header starts, from 0, and how many bytes it takes.
#[derive(Clone, Copy)]
pub struct Span {
    pub start: usize,
    pub width: usize,
}

// Where a machine stands: it goes on; it has ended with a number that has no figures, or with 5 and its place; it has
// all days and no byte is left.
// Kept: a number and no enum of refusals: the layouts and what is printed speak of it (field_steps, `number_if`).
#[derive(Clone, Copy, PartialEq, Eq)]
pub enum Stage {
    Going,
    Refused(u8),
    BadReading(Place),
    Complete,
}
