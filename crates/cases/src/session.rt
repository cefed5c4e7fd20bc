// What a record is served by: the runtime that its lines are printed by, the input that it is read from, and the list
// of editions that it goes by.
use editions::Editions;

#[derive(Drop)]
pub(crate) struct Session<'a, P, R> {
    pub(crate) rt: &'a P,
    pub(crate) input: R,
    pub(crate) editions: Editions,
}
