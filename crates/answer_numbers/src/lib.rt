// An answer as plain numbers, for a line of text and for a caller in Rust or C, to whom no enum can be handed. It meets
// specs/Numbers. Rules 8.1 and 10.7.
// Main theorem: the first figures of the list are the answer's (`line_is`, proofs/Line).
#![tactic(auto)]

ghost use Rattle.std.specs.Prelude.{◌≡◌, ◌∷◌};
ghost use Rattle.answers.specs.Said.{only, bad_place};
ghost use Rattle.answer_numbers.specs.Numbers.{numbers_of};

use answers::Place;

// An answer's number, how many figures follow it, and the figures, with 0 behind the last.
// Kept: an array with its count beside it, and a number for the answer. A caller in C is handed this, and no enum.
#[repr(C)]
#[derive(Clone, Copy)]
pub struct Numbers {
    pub number: u64,
    pub count: u64,
    pub figures: [u64; 7],
}

// A number without figures.
pub fn only(number: u64) -> Numbers
    ensures { result ≡ numbers_of (only number) }
{
    Numbers {
        number,
        count: 0,
        figures: [0; 7],
    }
}

// 5 with the place of the first illegal reading: its day from 1, its position in the day from 0.
pub fn with_place(place: Place) -> Numbers
    ensures { result ≡ numbers_of (bad_place place) }
{
    let Place { day, position } = place;
    Numbers {
        number: 5,
        count: 2,
        figures: [u64::from(day), u64::from(position), 0, 0, 0, 0, 0],
    }
}

// The number, then the seven figures. The printed line is the first of these eight: the number and as many as `count`
// says.
pub fn line_of(numbers: Numbers) -> [u64; 8]
    ensures { result ≡ numbers.number ∷ numbers.figures }
{
    let mut line = [numbers.number; 8];
    line[1..].copy_from_slice(&numbers.figures);
    line
}
