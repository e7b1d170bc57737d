use words::Fault;

// Why a sheet is not good.
#[derive(Clone, Copy)]
pub enum Flaw {
    // there is no board of the size that it asks for
    WrongBoard,
    // the fault, and the line that it is on, counted from 1
    Fault { fault: Fault, line: usize },
}

// What a check tells of a sheet: how many calls it has where it is good.
pub type Verdict = Result<usize, Flaw>;
