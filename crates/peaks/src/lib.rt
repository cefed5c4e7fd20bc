// The larger of two readings, and the highest of some. It meets `readings`, specs/Legal. Rule 4.3.
#![tactic(auto)]

ghost use Rattle.std.specs.Prelude.{◌≡◌, max};
ghost use Rattle.readings.specs.Legal.{highest_of};

// The larger of two readings.
pub fn larger(a: u32, b: u32) -> u32
    ensures { result ≡ max a b }
{
    a.max(b)
}

// The highest of some readings, and 0 of none.
pub fn highest(readings: &[u32]) -> u32
    ensures { result ≡ highest_of readings.now }
{
    let mut top = 0;
    for reading in readings {
        top = larger(top, *reading);
    }
    top
}
