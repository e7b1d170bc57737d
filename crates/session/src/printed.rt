use rules::Outcome;
use verdict::Flaw;

// A thing that a sheet prints.
#[derive(Clone, Copy)]
pub enum Printed<'a> {
    // What the board said to a call, which is the step of that number.
    Answered { step: usize, outcome: Outcome },
    // A note as it stands in the sheet, without its line feed.
    Note(&'a [u8]),
    // What is wrong with the sheet.
    Flawed(Flaw),
}
