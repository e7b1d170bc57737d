ghost use Rattle.std.specs.Prelude.{◌≡◌};
ghost use Rattle.words.specs.Faults.{fault, fault_number};

// What is wrong with a sheet, with the number that a verdict tells.
#[derive(Clone, Copy)]
pub enum FaultKind {
    // it does not begin with the header
    Header = 31,
    // a word that is not wanted at its place
    UnknownWord = 32,
    NotANumber = 33,
    // the line stops early or goes on
    WordCount = 34,
    // the last line has no line feed
    NoLineFeed = 35,
    TooLong = 36,
}

impl FaultKind {
    // The fault of this kind at a place.
    pub fn at(self, place: usize) -> Fault
        ensures { result ≡ fault self place }
    {
        Fault { kind: self, place }
    }
}

impl From<FaultKind> for u8 {
    ghost from_gives = { λ kind n. n ≡ fault_number kind };

    fn from(kind: FaultKind) -> u8 {
        kind as u8
    }
}

// What is wrong, and at which byte of the sheet, counted from 0.
#[derive(Clone, Copy)]
pub struct Fault {
    pub kind: FaultKind,
    pub place: usize,
}
