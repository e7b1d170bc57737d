ghost use Rattle.std.specs.Prelude.{◌≡◌, ℕ};
ghost use Rattle.session.specs.Agreement.{Agrees};
ghost use Rattle.session.specs.Meaning.{play_in, play_of};
ghost use Rattle.session.specs.Playing.{begun_by, started};

use crate::carrier::BUFFER_LEN;
use crate::rig::Rig;
use crate::session::{Phase, Session};
use rules::is_board_size;
use sheet::{Board as BoardLine, Reader};
use verdict::Flaw;
use words::Fault;

impl<'a> Phase<'a> {
    // What is told first of a sheet with this board line. Its frames lie in the buffer.
    fn first(
        line: Result<BoardLine, Fault>,
        sheet: &[u8],
        buffer: &'a mut [u8; BUFFER_LEN],
    ) -> Phase<'a>
        ensures { (place : ℕ) → play_in place 0 result ≡ begun_by sheet.now place line }
    {
        match line {
            Ok(asked) if is_board_size(asked.shims, asked.lines) => {
                Phase::Running(Rig::new(asked, buffer))
            }
            Ok(_) => Phase::Flawed(Flaw::WrongBoard),
            Err(fault) => Phase::Flawed(Flaw::of(sheet, fault)),
        }
    }
}

impl<'a> Session<'a> {
    // A run of the sheet, from its start. The buffer is for the frames of a sheet that asks for them.
    pub fn new(sheet: &'a [u8], buffer: &'a mut [u8; BUFFER_LEN]) -> Session<'a>
        ensures agrees { Agrees sheet.now }
        ensures play { play_of result ≡ started sheet.now }
        ensures sheet { result.reader.sheet ≡ sheet.entry }
    {
        let mut reader = Reader::new(sheet);
        let phase = Phase::first(reader.board(), sheet, buffer);
        Session {
            sheet,
            reader,
            phase,
            steps: 0,
        }
    }
}
