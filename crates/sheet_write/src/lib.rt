// Writing a window sheet into a lent buffer (Rules 5.1, 8.2 and 8.3). It meets `sheet`, specs/Answers; on the way it
// uses `sheet`, specs/Bytes and specs/Windows. That a written sheet reads back as the same meaning is proved in crate
// `sheet`.
#![tactic(auto)]

ghost use Rattle.std.specs.Prelude.{◌≡◌, ◌≤◌, ◌<◌, ◌++◌, length, drop, count_by};
ghost use Rattle.editions.specs.Editions.{edition_of};
ghost use Rattle.sheet.specs.Windows.{too_full};
ghost use Rattle.sheet.specs.Bytes.{window_bytes, sheet_size, window_byte, byte_at, bytes_of};
ghost use Rattle.sheet.specs.Answers.{said_of_written, write_answer, written};

use answers::Edition;
use editions::Editions;
use sheet::{Sheet, WriteRefusal};

// How many of a season's quarters are set.
fn set_in(season: &[bool; answers::DAY_QUARTERS]) -> usize
    ensures { result ≡ count_by (λ set. set) season.now }
{
    season.iter().filter(|set| **set).count()
}

// Does some season have more set quarters than an edition's limit?
fn too_full(edition: Edition, windows: &[bool; sheet::WINDOW_PLACES]) -> bool
    ensures { result ≡ too_full edition windows.now }
{
    let (seasons, _) = windows.as_chunks::<{ answers::DAY_QUARTERS }>();
    seasons
        .iter()
        .any(|season| usize::from(edition.limit) < set_in(season))
}

// Byte k, from 0, of the windows: eight quarters, the earliest is the highest bit.
// Kept: `as u8`, since eight bits always fit, and `try_from` would ask for an answer to a refusal that cannot be.
fn pack(windows: &[bool; sheet::WINDOW_PLACES], k: usize) -> u8
    requires { k < window_bytes }
    ensures { result ≡ window_byte windows.now k }
{
    let mut byte: usize = 0;
    for set in &windows[8 * k..8 * k + 8] {
        byte = 2 * byte + usize::from(*set);
    }
    byte as u8
}

// Byte i, from 0, of a sheet with these first eight bytes.
fn byte_at(head: &[u8; 8], windows: &[bool; sheet::WINDOW_PLACES], i: usize) -> u8
    requires { i < sheet_size }
    ensures { result ≡ byte_at head.now windows.now i }
{
    if i < sheet::WINDOWS_AT {
        return head[i];
    }
    pack(windows, i - sheet::WINDOWS_AT)
}

// Fills the first 56 bytes of a buffer that has them; the others stay.
fn fill(year: u16, level: u8, windows: &[bool; sheet::WINDOW_PLACES], out: &mut [u8])
    requires { sheet_size ≤ length out.old }
    ensures { out.new ≡ bytes_of year level windows.now ++ drop sheet_size out.old }
{
    let [version_high, version_low] = encoding::FORMAT_VERSION.to_be_bytes();
    let [year_high, year_low] = year.to_be_bytes();
    let head = [
        b'H',
        b'L',
        b'Z',
        version_high,
        version_low,
        year_high,
        year_low,
        level,
    ];
    for (i, byte) in out[..sheet::SHEET_SIZE].iter_mut().enumerate() {
        *byte = byte_at(&head, windows, i);
    }
}

// Writes a sheet by an edition into a lent buffer, for a caller that has picked the one of the sheet's year. Refuses
// 14, 1, 2, 12 in this order, and then changes no byte.
pub fn write_by(edition: Edition, sheet: Sheet, out: &mut [u8]) -> Result<(), WriteRefusal>
    ensures { (said_of_written result ≡ write_answer edition sheet (length out.old))
        × (out.new ≡ written edition sheet out.old) }
{
    let windows = sheet.windows;
    if out.len() < sheet::SHEET_SIZE {
        return Err(WriteRefusal::Short);
    }
    if answers::lacks_year(edition, sheet.year) {
        return Err(WriteRefusal::YearOut);
    }
    if answers::level_out(sheet.level) {
        return Err(WriteRefusal::LevelOut);
    }
    if too_full(edition, &windows) {
        return Err(WriteRefusal::Malformed);
    }
    fill(sheet.year, sheet.level, &windows, out);
    Ok(())
}

// Writes a sheet by the edition of its year into a lent buffer. Refuses 14, 1, 2, 12 in this order, and then changes no
// byte.
pub fn write(editions: Editions, sheet: Sheet, out: &mut [u8]) -> Result<(), WriteRefusal>
    ensures { (said_of_written result ≡ write_answer (edition_of editions sheet.year) sheet (length out.old))
        × (out.new ≡ written (edition_of editions sheet.year) sheet out.old) }
{
    write_by(editions::pick(editions, sheet.year), sheet, out)
}
