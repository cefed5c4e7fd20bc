// The small steps that machines share which read a file (Rules 10.1, 10.4 and 10.5). They meet `fields`, specs/Series
// and specs/Stages, and `number_if` of `ranges`.
#![tactic(auto)]

ghost use Rattle.std.specs.Prelude.{◌≡◌, ℕ, ◌*◌};
ghost use Rattle.ranges.specs.Ranges.{number_if, table};
ghost use Rattle.encoding.specs.Bytes.{four_at};
ghost use Rattle.readings.specs.Runs.{most_readings};
ghost use Rattle.fields.specs.Series.{reading_bytes};
ghost use Rattle.fields.specs.Stages.{going};

use fields::Stage;

// Does the machine go on?
pub fn is_going(stage: Stage) -> bool
    ensures { result ≡ going stage }
{
    stage == Stage::Going
}

// The number that refuses a field which fails its test, and 0 for one that passes.
// Kept: the layouts, the stages and what is printed speak of this number; an enum would be turned into it at once.
pub fn number_if(fails: bool, number: u8) -> u8
    ensures { result ≡ number_if fails number }
{
    if fails { number } else { 0 }
}

// The readings in a day's bytes, the first at place 0; 0 behind the last.
pub fn readings_in(b: &[u8]) -> [u32; readings::MOST_READINGS]
    ensures { result ≡ table (λ (i : ℕ). four_at b.now (reading_bytes * i)) most_readings }
{
    let mut out = [0; readings::MOST_READINGS];
    for (i, reading) in out.iter_mut().enumerate() {
        *reading = encoding::four_at(b, fields::READING_BYTES * i);
    }
    out
}
