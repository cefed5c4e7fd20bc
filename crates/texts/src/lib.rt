// Text in a lent buffer, as bytes, all of it or nothing. It meets specs/Text. Rule 10.1.
#![tactic(auto)]

ghost use Rattle.texts.specs.Text.{Put, Puts};

// So many bytes are enough for every text that a program prints: that of windows has never more than 49 for its first
// line and 14 for each of the 384 quarters, and all others are shorter.
pub const TEXT_MOST: usize = 5425;

// Bytes from place `at` on, counted from 0: all of them, and the place behind them is answered; or, where they do not
// fit, none, and the place itself is answered.
// Kept: the place itself and no Option where the bytes do not fit: that is what `Put` promises.
pub fn add_bytes(buf: &mut [u8], at: usize, bytes: &[u8]) -> usize
    ensures { Put at bytes.now buf.old buf.new result }
{
    if buf.len() < bytes.len() {
        return at;
    }
    if buf.len() - bytes.len() < at {
        return at;
    }
    buffers::lay(buf, at, bytes);
    at + bytes.len()
}

// A text that is written piece by piece into a lent buffer, and the place behind what is written of it.
#[derive(Drop)]
pub struct Writer<'a> {
    pub buf: &'a mut [u8],
    pub at: usize,
}

impl<'a> Writer<'a> {
    // Bytes behind those that are written: all of them, or, where they do not fit, none.
    pub fn add(&mut self, bytes: &[u8])
        ensures { Puts self.old bytes.now self.new }
    {
        self.at = add_bytes(self.buf, self.at, bytes);
    }
}
