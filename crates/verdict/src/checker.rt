ghost use Rattle.std.specs.Prelude.{◌≡◌, ◌≤◌, length, take, Ok};
ghost use Rattle.sheet.specs.Reading.{followed_by, entries_from};
ghost use Rattle.verdict.specs.Laws.{OnlyWritten, ReadsBack};
ghost use Rattle.verdict.specs.Verdicts.{calls_in, feeds, flaw_of, line_number_at, verdict_of};

use crate::verdict::{Flaw, Verdict};
use rules::is_board_size;
use sheet::{Line, Reader};
use words::Fault;

// How many line feeds stand before a place.
fn feeds_before(sheet: &[u8], place: usize) -> usize
    ensures value { result ≡ feeds (take place sheet.now) }
    ensures bound { result ≤ length sheet.now }
{
    sheet.iter().take(place).filter(|b| **b == b'\n').count()
}

// The line that a place is on: 1 plus the line feeds before it.
pub fn line_number(sheet: &[u8], place: usize) -> usize
    ensures { result ≡ line_number_at sheet.now place }
{
    1 + feeds_before(sheet, place)
}

// How many calls are left to read. A reader is no iterator: a fault ends the lines.
fn count_calls(mut reader: Reader) -> Result<usize, Fault>
    ensures { result ≡ followed_by (entries_from (length reader.entry.sheet.now) reader.entry.sheet.now reader.entry.at) (λ es. Ok (calls_in es)) }
{
    let mut calls = 0;
    while let Some(line) = reader.next_line()? {
        if let Line::Call(_) = line {
            calls += 1;
        }
    }
    Ok(calls)
}

impl Flaw {
    // A fault of a sheet, with the line that it is on.
    pub fn of(sheet: &[u8], fault: Fault) -> Flaw
        ensures { result ≡ flaw_of sheet.now fault }
    {
        Flaw::Fault {
            fault,
            line: line_number(sheet, fault.place),
        }
    }
}

// The verdict on a sheet.
fn judged(sheet: &[u8]) -> Verdict
    ensures { result ≡ verdict_of sheet.now }
{
    let mut reader = Reader::new(sheet);
    let board = reader.board().map_err(|fault| Flaw::of(sheet, fault))?;
    if !is_board_size(board.shims, board.lines) {
        return Err(Flaw::WrongBoard);
    }
    count_calls(reader).map_err(|fault| Flaw::of(sheet, fault))
}

// Checks a sheet. The verdict rests on a reading that is the inverse of writing.
pub fn check(sheet: &[u8]) -> Verdict
    ensures verdict { result ≡ verdict_of sheet.now }
    ensures reads_back { ReadsBack sheet.now }
    ensures only_written { OnlyWritten sheet.now }
{
    judged(sheet)
}
