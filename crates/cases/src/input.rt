// What a record is read by: the next number or the next bytes of standard input, 0 behind its end.
ghost use Rattle.std.specs.Prelude.{◌<◌, ◌≤◌, IfOk};

use super::session::Session;
use std::io;
use std::io::Read;

// Bytes that are lent to a call or taken for a sheet, and holidays of a customer's list: at most as many.
pub(crate) const ROOM: usize = 64;

impl<P, R: Read> Session<'_, P, R> {
    // Byte by byte, as a number comes: where the input ends in one, what stands behind is 0.
    fn array<const N: usize>(&mut self) -> io::Result<[u8; N]> {
        let mut bytes = [0; N];
        for byte in bytes.iter_mut() {
            *byte = self.byte()?;
        }
        Ok(bytes)
    }

    pub(crate) fn byte(&mut self) -> io::Result<u8> {
        let mut byte = [0];
        inputs::read_full(&mut self.input, &mut byte)?;
        Ok(byte[0])
    }

    pub(crate) fn two(&mut self) -> io::Result<u16> {
        Ok(u16::from_be_bytes(self.array()?))
    }

    pub(crate) fn four(&mut self) -> io::Result<u32> {
        Ok(u32::from_be_bytes(self.array()?))
    }

    pub(crate) fn eight(&mut self) -> io::Result<u64> {
        Ok(u64::from_be_bytes(self.array()?))
    }

    pub(crate) fn yes(&mut self) -> io::Result<bool> {
        Ok(self.byte()? != 0)
    }

    // A count of a byte that the room has.
    pub(crate) fn room(&mut self) -> io::Result<usize>
        ensures { IfOk result (λ n. n ≤ 64) }
    {
        Ok(usize::from(self.byte()?).min(ROOM))
    }

    // So many bytes, and 0 behind them.
    pub(crate) fn bytes(&mut self, n: usize) -> io::Result<[u8; ROOM]>
        requires { n ≤ 64 }
    {
        let mut bytes = [0; ROOM];
        inputs::read_full(&mut self.input, &mut bytes[..n])?;
        Ok(bytes)
    }

    // So many numbers of 16 bits, and 0 behind them.
    pub(crate) fn list(&mut self, count: usize) -> io::Result<[u16; 255]>
        requires { count < 256 }
    {
        let mut list = [0; 255];
        for number in list[..count].iter_mut() {
            *number = self.two()?;
        }
        Ok(list)
    }
}
