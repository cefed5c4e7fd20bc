// Reading a window sheet (Rules 5.1 to 5.3 and 8.2). It meets `sheet`, specs/Answers, by the edition of specs/Editions;
// on the way it uses `sheet`, specs/Bytes and specs/Windows.
#![tactic(auto)]

ghost use Rattle.std.specs.Prelude.{◌≡◌, ◌<◌, length};
ghost use Rattle.std.specs.List.{list_any};
ghost use Rattle.sheet.specs.Bytes.{sheet_size, bit_of, windows_in, set_from, season_full};
ghost use Rattle.sheet.specs.Answers.{shown_of, read_of};
ghost use Rattle.sheet_read.specs.Editions.{sheet_edition};

use answers::Edition;
use editions::Editions;
use sheet::{ReadRefusal, Sheet};

// The places, from 0, where a sheet's version, level and the windows of its seasons begin.
const VERSION_AT: usize = 3;

const LEVEL_AT: usize = 7;

const SEASONS_AT: [usize; sheet::SEASONS] = [8, 20, 32, 44];

// Bit j of a byte, from 0 at the highest.
fn bit_at(byte: u8, j: usize) -> bool
    requires { j < 8 }
    ensures { result ≡ bit_of byte j }
{
    (byte >> (7 - j)) % 2 == 1
}

// The windows in a sheet's bytes: place p, from 0, is bit p of the bytes from place 8 on.
fn unpack(b: &[u8]) -> [bool; sheet::WINDOW_PLACES]
    requires { length b.now ≡ sheet_size }
    ensures { result ≡ windows_in b.now }
{
    let mut windows = [false; sheet::WINDOW_PLACES];
    for (p, window) in windows.iter_mut().enumerate() {
        *window = bit_at(b[sheet::WINDOWS_AT + p / 8], p % 8);
    }
    windows
}

// How many quarters are set in the twelve bytes of a season, which begin at place i, from 0.
fn set_from(b: &[u8], i: usize) -> usize
    ensures { result ≡ set_from b.now i }
{
    (0..answers::DAY_QUARTERS)
        .filter(|q| bit_at(encoding::byte_at(b, i, *q / 8), *q % 8))
        .count()
}

// Are more quarters set in the twelve bytes of a season, which begin at place i, from 0, than an edition's limit? Any
// edition, any bytes and any place have an answer.
pub fn season_full(edition: Edition, b: &[u8], i: usize) -> bool
    ensures { result ≡ season_full edition b.now i }
{
    usize::from(edition.limit) < set_from(b, i)
}

// Does some season in a sheet's bytes have more set quarters than an edition's limit?
fn bytes_full(edition: Edition, b: &[u8]) -> bool
    ensures { result ≡ list_any (season_full edition b.now) SEASONS_AT }
{
    SEASONS_AT.iter().any(|at| season_full(edition, b, *at))
}

// Reads a sheet by an edition, for a caller that has picked the one of the sheet's year. Refuses 12 (length, mark or
// version), 1, 2, and 12 (too many set bits), in this order.
pub fn read_by(edition: Edition, b: &[u8]) -> Result<Sheet, ReadRefusal>
    ensures { shown_of result ≡ read_of edition b.now }
{
    if b.len() != sheet::SHEET_SIZE {
        return Err(ReadRefusal::Malformed);
    }
    if encoding::other_mark(b, 0, b"HLZ") {
        return Err(ReadRefusal::Malformed);
    }
    if encoding::two_at(b, VERSION_AT) != encoding::FORMAT_VERSION {
        return Err(ReadRefusal::Malformed);
    }
    let year = encoding::two_at(b, sheet::YEAR_AT);
    if answers::lacks_year(edition, year) {
        return Err(ReadRefusal::YearOut);
    }
    let level = b[LEVEL_AT];
    if answers::level_out(level) {
        return Err(ReadRefusal::LevelOut);
    }
    if bytes_full(edition, b) {
        return Err(ReadRefusal::Malformed);
    }
    let windows = unpack(b);
    Ok(Sheet {
        year,
        level,
        windows,
    })
}

// Reads a sheet by the edition of its year. Refuses 12 (length, mark or version), 1, 2, and 12 (too many set bits), in
// this order.
pub fn read(editions: Editions, b: &[u8]) -> Result<Sheet, ReadRefusal>
    ensures { shown_of result ≡ read_of (sheet_edition editions b.now) b.now }
{
    read_by(
        editions::pick(editions, encoding::two_at(b, sheet::YEAR_AT)),
        b,
    )
}

// The sheet that a reading shows: the one that was read, or beside a refusal one fixed sheet, with year 0, level 0 and
// no window (Rule 8.5).
pub fn sheet_shown(read: Result<Sheet, ReadRefusal>) -> Sheet
    ensures { result ≡ (shown_of read).sheet }
{
    match read {
        Ok(sheet) => sheet,
        Err(_) => Sheet {
            year: 0,
            level: 0,
            windows: [false; sheet::WINDOW_PLACES],
        },
    }
}
