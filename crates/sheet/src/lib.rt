// The window sheet (Rules 5.1 to 5.4): the types of its meaning and of what refuses it. What its 56 bytes mean is
// defined in specs/Windows and specs/Bytes, what reading and writing answer in specs/Answers and specs/Rows; the code
// that meets them is in crates `sheet_read` and `sheet_write`.
// Main theorem: what is written reads back as the same meaning, and what is read is written back as the same bytes
// (Rule 12.2; `read_written`, `bytes_back`, proofs/Back).
#![tactic(auto)]

// How many bytes a sheet has, and the places, from 0, of its year and where the windows of its seasons begin.
pub const SHEET_SIZE: usize = 56;

pub const YEAR_AT: usize = 5;

pub const WINDOWS_AT: usize = 8;

// How many seasons there are, and how many quarters all four have.
pub const SEASONS: usize = 4;

pub const WINDOW_PLACES: usize = 384;

// A sheet's meaning. Quarter q, from 0, of season s, from 1, stands at place 96 (s - 1) + q of the windows.
#[derive(Clone, Copy)]
pub struct Sheet {
    pub year: u16,
    pub level: u8,
    pub windows: [bool; WINDOW_PLACES],
}

// Why reading refuses: 1, 2, 12. (Reading never answers 14.)
#[derive(Clone, Copy, PartialEq, Eq)]
pub enum ReadRefusal {
    YearOut,
    LevelOut,
    Malformed,
}

// Why writing refuses: 14, 1, 2, 12.
#[derive(Clone, Copy, PartialEq, Eq)]
pub enum WriteRefusal {
    Short,
    YearOut,
    LevelOut,
    Malformed,
}
