ghost use Rattle.std.specs.Prelude.{◌≡◌, is_ok, if◌then◌else◌, Ok, OnOk};
ghost use Rattle.sheet.specs.Moves.{MovedTo};
ghost use Rattle.sheet.specs.Reading.{followed_by, word_end, operands_at, operands_end, board_operands, board_of, board_at, board_end, opened};

use crate::line::Board;
use crate::reader::Reader;
use words::{Fault, FaultKind};

// The most bytes that a sheet may have.
pub const SIZE_LIMIT: usize = 65536;

const HEADER: &[u8] = b"MGL 1\n";

impl<'a> Reader<'a> {
    // A reader of this sheet, from its start.
    pub fn new(sheet: &'a [u8]) -> Reader<'a>
        ensures sheet { result.sheet ≡ sheet.entry }
        ensures at { result.at ≡ 0 }
    {
        Reader { sheet, at: 0 }
    }

    // The board whose operands follow the word that ends here.
    fn board_operands(&mut self) -> Result<Board, Fault>
        ensures value { result ≡ followed_by (operands_at board_operands self.old.sheet.now self.old.at) (λ vs. Ok (board_of vs)) }
        ensures after { OnOk result (MovedTo self.old self.new (operands_end board_operands self.old.sheet.now self.old.at)) }
    {
        let board = Board {
            shims: self.number()?,
            lines: self.number()?,
            fabric: self.fabric()?,
        };
        self.end_line()?;
        Ok(board)
    }

    // The board line, which begins here.
    fn board_line(&mut self) -> Result<Board, Fault>
        ensures value { result ≡ board_at self.old.sheet.now self.old.at }
        ensures after { OnOk result (MovedTo self.old self.new (operands_end board_operands self.old.sheet.now (word_end self.old.sheet.now self.old.at))) }
    {
        if self.at >= self.sheet.len() {
            return Err(FaultKind::WordCount.at(self.sheet.len()));
        }
        self.keyword(b"board")?;
        self.board_operands()
    }

    // The board of the sheet: its size, its header and its board line are read, and the lines after it come next.
    // After a fault the reader is where it was.
    pub fn board(&mut self) -> Result<Board, Fault>
        ensures value { result ≡ opened self.old.sheet.now }
        ensures after { self.new.at ≡ (if is_ok result then board_end self.old.sheet.now else self.old.at) }
        ensures sheet { self.new.sheet ≡ self.old.sheet }
    {
        let sheet = self.sheet;
        if sheet.len() > SIZE_LIMIT {
            return Err(FaultKind::TooLong.at(SIZE_LIMIT));
        }
        if !sheet.starts_with(HEADER) {
            return Err(FaultKind::Header.at(0));
        }
        let mut ahead = Reader {
            sheet,
            at: HEADER.len(),
        };
        let board = ahead.board_line()?;
        *self = ahead;
        Ok(board)
    }
}
