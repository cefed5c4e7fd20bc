// What a line is written by.
use super::session::Session;
use answer_numbers::Numbers;
use std::fmt::Display;
use std::io;

impl<P: Print, R> Session<'_, P, R> {
    pub(crate) fn letter(&self, x: u8) -> io::Result<()> {
        self.rt.write_all(&[x])
    }

    pub(crate) fn end_line(&self) -> io::Result<()> {
        self.letter(b'\n')
    }

    // A number after a space.
    pub(crate) fn next<N: Display + Drop>(&self, n: N) -> io::Result<()> {
        self.letter(b' ')?;
        self.rt.print(n)
    }

    // All bytes in hexadecimal digits, after a space.
    pub(crate) fn hexadecimal(&self, bytes: &[u8]) -> io::Result<()> {
        let rt = self.rt;
        self.letter(b' ')?;
        for byte in bytes {
            print!(rt; "{byte:02x}")?;
        }
        Ok(())
    }

    // An answer's number, then each of its figures.
    pub(crate) fn numbers(&self, answer: Numbers) -> io::Result<()> {
        self.next(answer.number)?;
        for &figure in answer.figures.iter().take(answer.count as usize) {
            self.next(figure)?;
        }
        Ok(())
    }

    // The line of a call: its letter, then its answer.
    pub(crate) fn answered(&self, call: u8, answer: Numbers) -> io::Result<()> {
        self.letter(call)?;
        self.numbers(answer)?;
        self.end_line()
    }
}
