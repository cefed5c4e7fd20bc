// The machine that reads a file, whatever its series: a program asks it how many bytes come next (`want`) and hands
// them on (`feed`), fewer where the file has ended. Each field and each day is tested once all its bytes are there.
// What is a file's own (its header's fields, and the series that they open and that takes the days) it has by the trait
// `Series`. It meets specs/FileMachine, and `fields`, specs/Machine. Rules 10.4 and 10.5.
#![tactic(auto)]

ghost use Rattle.std.specs.Prelude.{◌≡◌, ◌≤◌, ◌<◌};
ghost use Rattle.editions.specs.declared.Editions.{Editions};
ghost use Rattle.fields.specs.Layout.{field_span};
ghost use Rattle.fields.specs.Stages.{day_stage};
ghost use Rattle.fields.specs.Machine.{wants, field_fed, day_fed, end_fed, fed};
ghost use Rattle.file_machine.specs.FileMachine.{Kind, KindLaws, file_start, file_reader};

use editions::Editions;
use fields::{Span, Stage};
use readings::Run;

// What a file's header opens, and what takes the days behind it. The header has at most N bytes; fields and days count
// from 0.
pub trait Series<const N: usize>: Copy {
    ghost kind: { Kind Self };

    // What each file must prove of them.
    ghost laws: { KindLaws kind N };

    // Where field k of the header stands, whatever the list of editions; behind the last field this is no byte.
    fn span_of(head: &[u8], k: usize) -> Span
        ensures { (es : Editions) → result ≡ field_span (kind.layout es head.now) k };

    // The number that refuses field k; 0 where it passes.
    fn refusal(editions: Editions, head: &[u8], k: usize) -> u8
        ensures { result ≡ (kind.layout editions head.now).refusal k };

    // The series before the first byte.
    fn fresh(editions: Editions) -> Self
        ensures { result ≡ kind.fresh editions };

    // The series after k fields, with these bytes in the header.
    fn opened(self, editions: Editions, head: &[u8], k: usize) -> Self
        ensures { result ≡ kind.opened editions self head.now k };

    // Which days it takes, and how many are taken.
    fn run(self) -> Run
        ensures { result ≡ kind.run self };

    fn seen(self) -> u16
        ensures { result ≡ kind.seen self };

    // One day more: where the machine stands after it, and the next state beside that, which is the old one where the
    // day is refused.
    fn day(self, day: &[u32]) -> (Stage, Self)
        ensures { result ≡ (day_stage (kind.said self day.now), kind.added self day.now) };
}

// A file that is being read: the list of editions that it is read by, how many fields are taken, the header's bytes,
// the series with the days taken, and where the machine stands.
#[derive(Clone, Copy)]
pub struct File<S, const N: usize> {
    pub editions: Editions,
    pub field: usize,
    pub head: [u8; N],
    pub series: S,
    pub stage: Stage,
}

impl<S: Series<N>, const N: usize> File<S, N> {
    // The state before the first byte: a header of zeros.
    pub fn start(editions: Editions) -> File<S, N>
        ensures { result ≡ file_start S.kind editions }
    {
        File {
            editions,
            field: 0,
            head: [0; N],
            series: S::fresh(editions),
            stage: Stage::Going,
        }
    }

    // The machine that has ended, with everything else as it was.
    fn ended(self, stage: Stage) -> File<S, N>
        ensures { result ≡ (file_reader S.kind).ended self stage }
    {
        File { stage, ..self }
    }

    // How many bytes come next: those of a field, those of a day, or one that should not be there; none once the
    // machine has ended. Never more than 400, the bytes of the long Sunday.
    pub fn want(self) -> usize
        ensures { (result ≡ wants (file_reader S.kind) self) × (result ≤ 400) }
    {
        if !field_steps::is_going(self.stage) {
            return 0;
        }
        let size = S::span_of(&self.head, self.field).width;
        if 0 < size {
            return size;
        }
        let run = self.series.run();
        let seen = self.series.seen();
        if readings::run_days(run) <= seen {
            return 1;
        }
        fields::READING_BYTES * readings::day_len(run, seen)
    }

    // Takes the next field, which stands at this span of the header: 12 where the file ends before it is complete.
    fn take_field(self, span: Span, b: &[u8]) -> File<S, N>
        requires { (span ≡ field_span (S.kind.layout self.editions self.head) self.field) × (0 < span.width) }
        ensures { result ≡ field_fed (file_reader S.kind) self b.now }
    {
        if b.len() < span.width {
            return self.ended(Stage::Refused(12));
        }
        let mut head = self.head;
        buffers::lay(&mut head, span.start, &b[..span.width]);
        let number = S::refusal(self.editions, &head, self.field);
        if number != 0 {
            return self.ended(Stage::Refused(number));
        }
        let field = self.field + 1;
        let series = self.series.opened(self.editions, &head, field);
        File {
            editions: self.editions,
            field,
            head,
            series,
            stage: Stage::Going,
        }
    }

    // Gives a day's readings to the series, which stays as it is where it refuses them: 4 where the file ends in the
    // day.
    fn take_day(self, b: &[u8]) -> File<S, N>
        ensures { result ≡ day_fed (file_reader S.kind) self b.now }
    {
        let n = readings::day_len(self.series.run(), self.series.seen());
        if b.len() < fields::READING_BYTES * n {
            return self.ended(Stage::Refused(4));
        }
        let readings = field_steps::readings_in(b);
        let (stage, series) = self.series.day(&readings[..n]);
        File {
            series,
            stage,
            ..self
        }
    }

    // Behind the last day: a byte that is there is 4.
    fn take_end(self, b: &[u8]) -> File<S, N>
        ensures { result ≡ end_fed (file_reader S.kind) self b.now }
    {
        if b.len() > 0 {
            return self.ended(Stage::Refused(4));
        }
        self.ended(Stage::Complete)
    }

    // Takes the bytes that it wanted; fewer where the file has ended. A machine that has ended stays as it is.
    pub fn feed(self, b: &[u8]) -> File<S, N>
        ensures { result ≡ fed (file_reader S.kind) self b.now }
    {
        if !field_steps::is_going(self.stage) {
            return self;
        }
        let span = S::span_of(&self.head, self.field);
        if 0 < span.width {
            return self.take_field(span, b);
        }
        if self.series.seen() < readings::run_days(self.series.run()) {
            return self.take_day(b);
        }
        self.take_end(b)
    }
}
