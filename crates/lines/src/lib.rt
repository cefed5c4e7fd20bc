// The lines of figures that the two programs print, as bytes: a statement, and a refusal. Each public call writes its
// whole text at the start of a lent buffer and answers the text's length; the bytes behind it stay. Where the buffer is
// too short, it writes nothing and answers 0. It meets specs/Figures and `texts`, specs/Text. Rules 10.1, 10.6 and
// 10.7.
#![tactic(auto)]

ghost use Rattle.std.specs.Prelude.{◌≡◌, ◌≤◌, leb, length};
ghost use Rattle.texts.specs.Text.{Put, HasRoom, Writes};
ghost use Rattle.lines.specs.Figures.{decimal_of, field_of, figures_line, refused_line};

use texts::Writer;

// How many bytes the word `REFUSED` and the space behind it have.
const REFUSED_SIZE: usize = 8;

// How many decimal digits a number has.
fn number_len(x: u64) -> usize
    ensures { (result ≡ length (decimal_of x)) × (result ≤ 20) }
{
    let mut digits = [0u8; 20];
    io::decimal(x, &mut digits)
}

// A number in decimal.
fn add_number(text: &mut Writer, x: u64)
    requires { HasRoom text.old (decimal_of x) }
    ensures { Writes text.old (decimal_of x) text.new }
{
    let mut digits = [0u8; 20];
    let k = io::decimal(x, &mut digits);
    text.add(&digits[..k]);
}

// How many bytes field i of a line has, from 0: with a space before it, unless it is the first.
fn field_len(i: usize, x: u64) -> usize
    ensures { result ≡ length (field_of i x) }
{
    let n = number_len(x);
    if i == 0 { n } else { n + 1 }
}

// Field i of a line, from 0.
fn add_field(text: &mut Writer, i: usize, x: u64)
    requires { HasRoom text.old (field_of i x) }
    ensures { Writes text.old (field_of i x) text.new }
{
    if i != 0 {
        text.add(b" ");
    }
    add_number(text, x);
}

// Does the line of these figures fit into `room` bytes? It stops at the first field that does not, so that nothing
// overflows.
fn figures_fit(figures: &[u64], room: usize) -> bool
    ensures { result ≡ leb (length (figures_line figures.now)) room }
{
    let mut left = room;
    for (i, &x) in figures.iter().enumerate() {
        let need = field_len(i, x);
        if left < need {
            return false;
        }
        left -= need;
    }
    0 < left
}

// The line of these figures, the line feed with it.
fn add_figures(text: &mut Writer, figures: &[u64])
    requires { HasRoom text.old (figures_line figures.now) }
    ensures { Writes text.old (figures_line figures.now) text.new }
{
    for (i, &x) in figures.iter().enumerate() {
        add_field(text, i, x);
    }
    text.add(b"\n");
}

// The statement program's line: an answer's number and its figures, any number of them.
// Kept: 0 and no Option where the text does not fit, here and in every call for a text: `Put` promises it.
pub fn figures_text(figures: &[u64], buf: &mut [u8]) -> usize
    ensures { Put 0 (figures_line figures.now) buf.old buf.new result }
{
    if !figures_fit(figures, buf.len()) {
        return 0;
    }
    let mut text = Writer { buf, at: 0 };
    add_figures(&mut text, figures);
    text.at
}

// The window program's refusal: `REFUSED`, the number and its figures, any number of them.
pub fn refused_text(figures: &[u64], buf: &mut [u8]) -> usize
    ensures { Put 0 (refused_line figures.now) buf.old buf.new result }
{
    let room = buf.len();
    if room < REFUSED_SIZE {
        return 0;
    }
    if !figures_fit(figures, room - REFUSED_SIZE) {
        return 0;
    }
    let mut text = Writer { buf, at: 0 };
    text.add(b"REFUSED ");
    add_figures(&mut text, figures);
    text.at
}
