// What the statement program prints once the machine of room `customer_file` has ended: the number and its figures. It
// meets specs/Text; `lines`, specs/Text, says how a text is put into a lent buffer. Rule 10.7.
#![tactic(auto)]

ghost use Rattle.std.specs.Prelude.{◌≡◌, ◌≤◌};
ghost use Rattle.answer_numbers.specs.Numbers.{numbers_of};
ghost use Rattle.texts.specs.Text.{Put};
ghost use Rattle.customer_file.specs.CustomerMachine.{answer_of};
ghost use Rattle.customer_text.specs.Text.{customer_text};

use answer_numbers::Numbers;
use customer_file::CustomerFile;
use fields::Stage;

// What the file is answered, as plain numbers; 13 while the machine goes on.
fn answer(file: CustomerFile) -> Numbers
    ensures { (result ≡ numbers_of (answer_of file)) × (result.count ≤ 7) }
{
    match file.stage {
        Stage::Going => answer_numbers::only(13),
        Stage::Refused(number) => answer_numbers::only(u64::from(number)),
        Stage::BadReading(place) => answer_numbers::with_place(place),
        Stage::Complete => decision_numbers::of_decision(file.series.customer.close()),
    }
}

// What the statement program prints, at the start of a lent buffer, all or nothing.
pub fn text(file: CustomerFile, out: &mut [u8]) -> usize
    ensures { Put 0 (customer_text file) out.old out.new result }
{
    let listed = answer(file);
    let n = listed.count as usize + 1;
    let line = answer_numbers::line_of(listed);
    lines::figures_text(&line[..n], out)
}
