ghost use Rattle.std.specs.Prelude.{◌≡◌, ◌≤◌};

use crate::rig::Rig;
use sheet::Reader;
use verdict::Flaw;

// What is told next.
#[derive(Drop)]
pub(crate) enum Phase<'a> {
    // What comes of the next line, on this board.
    Running(Rig<'a>),
    // What is wrong with the sheet before its lines.
    Flawed(Flaw),
    // Nothing.
    Over,
}

// A sheet in the middle of its run.
#[derive(Drop)]
pub struct Session<'a> {
    pub(crate) sheet: &'a [u8],
    pub(crate) reader: Reader<'a>,
    pub(crate) phase: Phase<'a>,
    // How many calls were made.
    pub(crate) steps: usize,
    ghost same: { reader.sheet.now ≡ sheet.now },
    ghost few_steps: { steps ≤ reader.at },
}
