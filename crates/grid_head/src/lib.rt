// The header of a grid file: where its fields stand, the number that refuses each, and the series that it opens, by the
// header's bytes. It meets specs/Header, and `fields`, specs/Layout. Fields and places count from 0. Behind the last
// byte there is 0, so that every call answers for any bytes. Rules 10.2 and 10.4.
#![tactic(auto)]

ghost use Rattle.std.specs.Prelude.{◌≡◌};
ghost use Rattle.editions.specs.declared.Editions.{Editions};
ghost use Rattle.fields.specs.Layout.{field_span};
ghost use Rattle.grid_head.specs.Header.{grid_layout, opened_grid};

use editions::Editions;
use fields::Span;
use grid_days::Grid;

// Where the header's fields stand, field 0 (the mark) first; how many bytes the header has.
const SPANS: [Span; 4] = [
    Span { start: 0, width: 3 },
    Span { start: 3, width: 2 },
    Span { start: 5, width: 2 },
    Span { start: 7, width: 1 },
];

pub const GRID_HEAD_MOST: usize = 8;

// The places, from 0, of version, year and level.
const VERSION_AT: usize = 3;

const YEAR_AT: usize = 5;

const LEVEL_AT: usize = 7;

// Where field k, from 0, stands, whatever the list of editions; behind the last field this is no byte, at the header's
// end.
pub fn span_of(head: &[u8], k: usize) -> Span
    ensures { (es : Editions) → result ≡ field_span (grid_layout es head.now) k }
{
    if k < SPANS.len() {
        return SPANS[k];
    }
    Span {
        start: GRID_HEAD_MOST,
        width: 0,
    }
}

// The number that refuses field k, from 0; 0 where it passes, and where there is no such field.
pub fn refusal(editions: Editions, head: &[u8], k: usize) -> u8
    ensures { result ≡ (grid_layout editions head.now).refusal k }
{
    match k {
        0 => field_steps::number_if(encoding::other_mark(head, 0, b"GRD"), 12),
        1 => field_steps::number_if(
            encoding::two_at(head, VERSION_AT) != encoding::FORMAT_VERSION,
            12,
        ),
        2 => field_steps::number_if(
            editions::year_out(editions, encoding::two_at(head, YEAR_AT)),
            1,
        ),
        3 => field_steps::number_if(answers::level_out(encoding::byte_at(head, LEVEL_AT, 0)), 2),
        _ => 0,
    }
}

// The series that the header opens; where year or level is refused, the fixed state of a refused opening (Rule 9.5).
pub fn opened(editions: Editions, head: &[u8]) -> Grid
    ensures { result ≡ opened_grid editions head.now }
{
    let step = Grid::open(
        editions,
        encoding::two_at(head, YEAR_AT),
        encoding::byte_at(head, LEVEL_AT, 0),
    );
    step.grid
}
