// What a program's input is read by: a part of it, as many bytes as the part has. It meets the words of std on what a
// reader has left. Rules 10.4 and 10.5.
#![tactic(auto)]

ghost use Rattle.std.specs.Prelude.{◌<◌, ◌≤◌, length, take, IfOk};
ghost use Rattle.std.specs.Io.KnownBytes.{Consumes, IsAtEnd};

use std::io;
use std::io::Read;

// Reads until the part is full or the input ends, and answers how many bytes stand at its start. Never asks for more
// bytes than the part has, and for none where it has none: what lies behind them stays in the input.
pub fn read_full<R: Read>(input: &mut R, part: &mut [u8]) -> io::Result<usize>
    ensures within { IfOk result (λ n. n ≤ length part.new) }
    ensures bytes { IfOk result (λ n. Consumes (R.remaining input.old) (R.remaining input.new) (take n part.new)) }
    ensures end { IfOk result (λ n. n < length part.new → IsAtEnd (R.remaining input.new)) }
{
    let mut done = 0;
    // Kept: the step is as many bytes as a read gave, which no range and no iterator counts.
    while done < part.len() {
        let n = input.read(&mut part[done..])?;
        if n == 0 {
            return Ok(done);
        }
        done += n;
    }
    Ok(done)
}
