// The lines of windows that the window program prints, as bytes. Room `lines` has the other texts, and says how a text
// is put into a lent buffer. It meets specs/Runs, and `lines`, specs/Text. Quarters count from 0, seasons from 1. Rule
// 10.6.
// Main theorem: the printed examples of Rules 10.6 and 10.7 are what the definitions say (proofs/Cases).
#![tactic(auto)]

ghost use Rattle.std.specs.Prelude.{◌≡◌, ◌+◌, ◌≤◌, ◌<◌, length};
ghost use Rattle.answers.specs.Ruling.{day_quarters};
ghost use Rattle.sheet.specs.Windows.{seasons};
ghost use Rattle.texts.specs.Text.{text_over, Put, HasRoom, Writes};
ghost use Rattle.window_lines.specs.Runs.{head_line, time_of, run_line, quarters, run_end, run_text, season_text, season_in, windows_text};
ghost use Rattle.window_lines.specs.Runs.{begins as begins_at};

use texts::Writer;

// So many bytes are enough for the line of any two figures.
const PAIR_MOST: usize = 45;

// The time at which a quarter begins, as `hh:mm`; for 96 it is 24:00, the end of the day.
// Kept: the digits by hand, as the definition has them: a format would make the writer a `fmt::Write` for one line.
fn add_time(text: &mut Writer, q: usize)
    requires { (q ≤ day_quarters) × (text.old.at + 5 ≤ length text.old.buf.now) }
    ensures { Writes text.old (time_of q) text.new }
{
    let time = [
        (48 + q / 4 / 10) as u8,
        (48 + q / 4 % 10) as u8,
        b':',
        (48 + q % 4 * 15 / 10) as u8,
        (48 + q % 4 * 15 % 10) as u8,
    ];
    text.add(&time);
}

// A season: its number, from 1, and for each quarter of the day whether it is set.
#[derive(Clone, Copy)]
struct Season<'a> {
    number: u8,
    set: &'a [bool; answers::DAY_QUARTERS],
}

impl Season<'_> {
    // Does a run begin at quarter q?
    fn begins(&self, q: usize) -> bool
        requires { q < day_quarters }
        ensures { result ≡ begins_at (quarters self.now.set.now) q }
    {
        self.set[q] && (q == 0 || !self.set[q - 1])
    }

    // The first quarter from q on that is not set; 96 where all are.
    fn run_end(&self, q: usize) -> usize
        requires { q < day_quarters }
        ensures { (result ≡ run_end (quarters self.now.set.now) q) × (result ≤ day_quarters) }
    {
        let set = self.set;
        match set[q..].iter().position(|set| !set) {
            Some(j) => q + j,
            None => answers::DAY_QUARTERS,
        }
    }

    // A run's line, 14 bytes: from the start of quarter `from` to that of quarter `to`, which is not in the run.
    fn add_line(&self, text: &mut Writer, from: usize, to: usize)
        requires { (self.now.number ≤ seasons) × (from ≤ day_quarters) × (to ≤ day_quarters) × (text.old.at + 14 ≤ length text.old.buf.now) }
        ensures { Writes text.old (run_line self.now.number from to) text.new }
    {
        text.add(&[48 + self.number, b' ']);
        add_time(text, from);
        text.add(b"-");
        add_time(text, to);
        text.add(b"\n");
    }

    // The line of the run that begins at quarter q, if one does.
    fn add_run(&self, text: &mut Writer, q: usize)
        requires { (self.now.number ≤ seasons) × (q < day_quarters) × HasRoom text.old (run_text self.now.number (quarters self.now.set.now) q) }
        ensures { Writes text.old (run_text self.now.number (quarters self.now.set.now) q) text.new }
    {
        if self.begins(q) {
            let to = self.run_end(q);
            self.add_line(text, q, to);
        }
    }

    // The lines of all its runs, in the order of the day.
    fn add_runs(&self, text: &mut Writer)
        requires { (self.now.number ≤ seasons) × HasRoom text.old (text_over (run_text self.now.number (quarters self.now.set.now)) day_quarters) }
        ensures { Writes text.old (text_over (run_text self.now.number (quarters self.now.set.now)) day_quarters) text.new }
    {
        for q in 0..answers::DAY_QUARTERS {
            self.add_run(text, q);
        }
    }

    // Its lines: its runs, or the one line that says none.
    fn add_to(&self, text: &mut Writer)
        requires { (self.now.number ≤ seasons) × HasRoom text.old (season_text self.now.number (quarters self.now.set.now)) }
        ensures { Writes text.old (season_text self.now.number (quarters self.now.set.now)) text.new }
    {
        let set = self.set;
        if set.contains(&true) {
            self.add_runs(text);
        } else {
            text.add(&[48 + self.number, b' ', b'n', b'o', b'n', b'e', b'\n']);
        }
    }
}

// The lines of the seasons 1 to 4.
fn add_seasons(text: &mut Writer, windows: &[bool; sheet::WINDOW_PLACES])
    requires { HasRoom text.old (text_over (season_in windows.now) seasons) }
    ensures { Writes text.old (text_over (season_in windows.now) seasons) text.new }
{
    let (days, _) = windows.as_chunks::<{ answers::DAY_QUARTERS }>();
    for (k, set) in days.iter().enumerate() {
        let season = Season {
            number: k as u8 + 1,
            set,
        };
        season.add_to(text);
    }
}

// The first line: `HLZ`, year and level. The two figures are first written into an array that has room for any two.
fn add_head(text: &mut Writer, year: u16, level: u8)
    requires { HasRoom text.old (head_line year level) }
    ensures { Writes text.old (head_line year level) text.new }
{
    let figures = [u64::from(year), u64::from(level)];
    let mut line = [0u8; PAIR_MOST];
    let n = lines::figures_text(&figures, &mut line);
    text.add(b"HLZ ");
    text.add(&line[..n]);
}

// All that the window program prints for an accepted file; any year, level and windows have a text. It is made in an
// array that has room for every one, since nothing is written where `buf` is too short.
pub fn windows_text(
    year: u16,
    level: u8,
    windows: &[bool; sheet::WINDOW_PLACES],
    buf: &mut [u8],
) -> usize
    ensures { Put 0 (windows_text year level windows.now) buf.old buf.new result }
{
    let mut made = [0u8; texts::TEXT_MOST];
    let mut text = Writer {
        buf: &mut made,
        at: 0,
    };
    add_head(&mut text, year, level);
    add_seasons(&mut text, windows);
    let n = text.at;
    texts::add_bytes(buf, 0, &made[..n])
}
