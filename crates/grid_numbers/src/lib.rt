// The answer of a call on a grid's series as plain numbers. It meets `answer_numbers`, specs/Numbers, and `grid`,
// specs/Answers. Rule 8.1.
#![tactic(auto)]

ghost use Rattle.std.specs.Prelude.{◌≡◌};
ghost use Rattle.grid.specs.Answers.{said_of_grid};
ghost use Rattle.answer_numbers.specs.Numbers.{numbers_of};

use answer_numbers::Numbers;
use grid::GridRefusal;

// Kept: a function and no `From`, since neither type is this crate's own.
// An answer's number; 5 has the place of the illegal reading as its figures, the day from 1 and the position from 0.
pub fn of_answer(answer: Result<(), GridRefusal>) -> Numbers
    ensures { result ≡ numbers_of (said_of_grid answer) }
{
    match answer {
        Ok(()) => answer_numbers::only(0),
        Err(GridRefusal::Short) => answer_numbers::only(14),
        Err(GridRefusal::YearOut) => answer_numbers::only(1),
        Err(GridRefusal::LevelOut) => answer_numbers::only(2),
        Err(GridRefusal::WrongLength) => answer_numbers::only(4),
        Err(GridRefusal::BadReading(place)) => answer_numbers::with_place(place),
        Err(GridRefusal::NoPeak) => answer_numbers::only(7),
        Err(GridRefusal::Malformed) => answer_numbers::only(12),
        Err(GridRefusal::DayOut) => answer_numbers::only(13),
    }
}
