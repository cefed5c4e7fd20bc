// The list of editions that the other records go by. A record is E, an operation (a byte), and what the operation says.
// Numbers have 16 bits where nothing else is said. An edition is its first and last year, line and limit (a byte each),
// the seven shares (a byte each, level 1 first), the least move (32 bits), the floor (a byte), the least reduction
// (32 bits) and the hours. Each operation prints a line that begins with its letter:
//   N  takes the list without a record. Prints how many records the list has then.
//   T  takes today's list. Prints the same.
//   I  an edition: loads it into the list. Prints the answer's number, then how many records the list has.
//   Y  a year: prints all numbers of the edition that holds for it, in the order above.
//   F  count (a byte), place (a byte, from 0, at most 7), an edition: puts the edition at that place and the count into
//      the list, loaded or not: a list that no loading made. Prints the count.
// tests/editions.py makes them, and what must come of them, for edition_cases.py and others beside it.
use super::session::Session;
use answers::Edition;
use editions::{Editions, NotLoaded};
use std::io;
use std::io::Read;

impl<P: Print, R: Read> Session<'_, P, R> {
    fn next_shares(&mut self) -> io::Result<[u8; 7]> {
        let mut shares = [0; 7];
        for share in shares.iter_mut() {
            *share = self.byte()?;
        }
        Ok(shares)
    }

    fn next_edition(&mut self) -> io::Result<Edition> {
        Ok(Edition {
            first: self.two()?,
            last: self.two()?,
            line: self.byte()?,
            limit: self.byte()?,
            shares: self.next_shares()?,
            least_move: self.four()?,
            floor: self.byte()?,
            least_reduction: self.four()?,
            hours: self.two()?,
        })
    }

    fn write_edition(&self, edition: Edition) -> io::Result<()> {
        self.next(edition.first)?;
        self.next(edition.last)?;
        self.next(edition.line)?;
        self.next(edition.limit)?;
        for share in edition.shares {
            self.next(share)?;
        }
        self.next(edition.least_move)?;
        self.next(edition.floor)?;
        self.next(edition.least_reduction)?;
        self.next(edition.hours)
    }

    // The line of an operation that leaves a list: how many records it has.
    fn left(&mut self, operation: u8, list: Editions) -> io::Result<()> {
        self.editions = list;
        self.letter(operation)?;
        self.next(list.count)?;
        self.end_line()
    }

    // I: a loading.
    fn load(&mut self) -> io::Result<()> {
        let edition = self.next_edition()?;
        let number = match self.editions.load(edition) {
            Ok(()) => 0,
            Err(NotLoaded) => 22,
        };
        self.letter(b'I')?;
        self.next(number)?;
        self.next(self.editions.count)?;
        self.end_line()
    }

    // Y: the edition of a year.
    fn pick(&mut self) -> io::Result<()> {
        let edition = editions::pick(self.editions, self.two()?);
        self.letter(b'Y')?;
        self.write_edition(edition)?;
        self.end_line()
    }

    // F: a list that no loading made.
    fn forge(&mut self) -> io::Result<()> {
        let count = self.byte()?;
        let place = usize::from(self.byte()?.min(7));
        let mut records = self.editions.records;
        records[place] = self.next_edition()?;
        self.left(b'F', Editions { count, records })
    }

    pub(crate) fn one_operation(&mut self) -> io::Result<()> {
        match self.byte()? {
            b'N' => self.left(b'N', editions::none()),
            b'I' => self.load(),
            b'Y' => self.pick(),
            b'F' => self.forge(),
            _ => self.left(b'T', editions::todays()),
        }
    }
}
