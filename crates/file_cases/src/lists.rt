// The list of editions that stands before a file: how many editions follow (a byte), then each of them, 24 bytes.
// Numbers have the high byte first, and behind the file's end there is 0.
use answers::Edition;
use editions::Editions;
use std::io;
use std::io::Read;

const EDITION_SIZE: usize = 24;

pub(crate) fn byte<R: Read>(input: &mut R) -> io::Result<u8> {
    let mut b = [0u8; 1];
    inputs::read_full(input, &mut b)?;
    Ok(b[0])
}

// First and last year (16 bits each), line, limit, the seven shares (a byte each, level 1 first), the least move
// (32 bits), the floor (a byte), the least reduction (32 bits), the hours (16 bits).
fn edition<R: Read>(input: &mut R) -> io::Result<Edition> {
    let mut b = [0u8; EDITION_SIZE];
    inputs::read_full(input, &mut b)?;
    let shares = [b[6], b[7], b[8], b[9], b[10], b[11], b[12]];
    Ok(Edition {
        first: encoding::two_at(&b, 0),
        last: encoding::two_at(&b, 2),
        line: b[4],
        limit: b[5],
        shares,
        least_move: encoding::four_at(&b, 13),
        floor: b[17],
        least_reduction: encoding::four_at(&b, 18),
        hours: encoding::two_at(&b, 22),
    })
}

// The editions, loaded one after the other into a list without a record: a refused one leaves the list as it was.
pub(crate) fn list<R: Read>(input: &mut R) -> io::Result<Editions> {
    let count = byte(input)?;
    let mut list = editions::none();
    for _ in 0..count {
        let _ = list.load(edition(input)?);
    }
    Ok(list)
}
