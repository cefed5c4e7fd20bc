// Numbers and marks in bytes, for the sheet and for both files: a number has its high byte first (Rules 5.1 and 10.1).
// It meets specs/Bytes. Places and bytes count from 0. Behind the last byte there is 0, so that every call answers for
// any bytes and any place.
#![tactic(auto)]

ghost use Rattle.std.specs.Prelude.{◌≡◌, ◌+◌, ◌<◌, get_or};
ghost use Rattle.encoding.specs.Bytes.{two_at, four_at};
ghost use Rattle.encoding.specs.Bytes.{other_mark};

// How many bytes a mark has, and the one version of sheets and files.
pub const MARK_SIZE: usize = 3;

pub const FORMAT_VERSION: u16 = 1;

// What stands behind the last byte.
const BEHIND: u8 = 0;

// Byte k, from 0, of the bytes from place i on.
pub fn byte_at(b: &[u8], i: usize, k: usize) -> u8
    ensures { result ≡ get_or b.now (i + k) 0 }
{
    b.get(i.saturating_add(k)).copied().unwrap_or(BEHIND)
}

// The number of 16 bits at place i, high byte first.
pub fn two_at(b: &[u8], i: usize) -> u16
    ensures { result ≡ two_at b.now i }
{
    u16::from_be_bytes([byte_at(b, i, 0), byte_at(b, i, 1)])
}

// The number of 32 bits at place i, high byte first.
pub fn four_at(b: &[u8], i: usize) -> u32
    ensures { result ≡ four_at b.now i }
{
    u32::from_be_bytes([
        byte_at(b, i, 0),
        byte_at(b, i, 1),
        byte_at(b, i, 2),
        byte_at(b, i, 3),
    ])
}

// Are the three bytes at place i another mark?
pub fn other_mark(b: &[u8], i: usize, mark: &[u8; MARK_SIZE]) -> bool
    ensures { result ≡ other_mark mark.now b.now i }
{
    [byte_at(b, i, 0), byte_at(b, i, 1), byte_at(b, i, 2)] != *mark
}
