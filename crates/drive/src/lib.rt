// A file's machine, driven over what a program reads: each turn hands it as many bytes as it wants, fewer where the
// input ends. Nothing is decided here: `want` of room `file_machine` says how many bytes are read next, and `feed`
// tests them. It meets specs/Unread, by `driven` of `fields`, specs/File. Rules 10.4 and 10.5.
#![tactic(auto)]

ghost use Rattle.std.specs.Prelude.{◌≡◌, ◌≤◌, Some, IfOk, IfSome, take, drop};
ghost use Rattle.drive.specs.Unread.{Drives};
ghost use Rattle.fields.specs.Machine.{wants, fed};
ghost use Rattle.file_machine.specs.FileMachine.{file_start, file_reader};

use editions::Editions;
use file_machine::{File, Series};
use std::io;
use std::io::Read;

// A part is a field or a day. `want` never asks for more bytes than this, which the long Sunday has.
const PART_MOST: usize = 400;

// A file has at most so many parts: 16 fields and 40 holidays, 366 days, and a byte that should not be there.
const PARTS: u32 = 423;

// One field or one day. A part is tested before the next is asked for (Rules 10.4 and 10.5).
fn next<R: Read, S: Series<N>, const N: usize>(
    input: &mut R,
    file: File<S, N>,
) -> io::Result<File<S, N>>
    ensures { IfOk result (λ s. IfSome (R.remaining input.old) (λ bytes.
        (s ≡ fed (file_reader S.kind) file (take (wants (file_reader S.kind) file) bytes))
        × (R.remaining input.new ≡ Some (drop (wants (file_reader S.kind) file) bytes)))) }
{
    let mut bytes = [0; PART_MOST];
    let part = &mut bytes[..file.want()];
    let n = inputs::read_full(input, part)?;
    Ok(file.feed(&part[..n]))
}

// Part after part. A machine that has ended is handed back at once, whatever the input still has.
pub fn drive<R: Read, S: Series<N>, const N: usize>(
    input: &mut R,
    editions: Editions,
) -> io::Result<File<S, N>>
    ensures { IfOk result (λ s. IfSome (R.remaining input.old) (λ bytes.
        Drives (file_reader S.kind) 423 (file_start S.kind editions) bytes s (R.remaining input.new))) }
{
    let mut file = File::start(editions);
    for _turn in 0..PARTS {
        if !field_steps::is_going(file.stage) {
            return Ok(file);
        }
        file = next(input, file)?;
    }
    Ok(file)
}
