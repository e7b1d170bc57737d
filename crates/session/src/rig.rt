ghost use Rattle.std.specs.Prelude.{◌≡◌, ℕ, true};
ghost use Rattle.rules.specs.Make.{make_rule};
ghost use Rattle.rules.specs.Sizes.{is_size};
ghost use Rattle.board.specs.Called.{left, called};
ghost use Rattle.board.specs.Made.{made_of};
ghost use Rattle.session.specs.Carrier.{carrier_lanes};
ghost use Rattle.session.specs.Meaning.{running_on};
ghost use Rattle.session.specs.Playing.{begun, running};

use crate::carrier::{BUFFER_LEN, Carrier};
use board::Board;
use rules::{Call, Outcome, Refusal};
use sheet::Board as BoardLine;

// A board over the fabric of a sheet.
#[derive(Drop)]
pub(crate) struct Rig<'a> {
    board: Board,
    carrier: Carrier<'a>,
}

impl<'a> Rig<'a> {
    // The board that is asked for, over its fabric. The buffer is for frames.
    pub(crate) fn new(asked: BoardLine, buffer: &'a mut [u8; BUFFER_LEN]) -> Rig<'a>
        requires { is_size asked.shims asked.lines ≡ true }
        ensures { (place : ℕ) → running_on place 0 result ≡ running (begun place asked) }
    {
        let carrier = Carrier::new(asked.fabric, asked.shims as usize, buffer);
        // Never refused: the size is one of a board, and the fabric is new.
        let board = make_board(&carrier, asked.shims, asked.lines).unwrap();
        Rig { board, carrier }
    }

    // Makes a call on the board.
    pub(crate) fn call(&mut self, call: Call) -> Outcome
        ensures { left result self.new.board (carrier_lanes self.new.carrier) ≡ called self.old.board (carrier_lanes self.old.carrier) call }
    {
        match &mut self.carrier {
            Carrier::Ring(ring) => self.board.call(ring, call),
            Carrier::Frames(frames) => self.board.call(frames, call),
            Carrier::Staged(stage) => self.board.call(stage, call),
        }
    }
}

// A board over the fabric.
fn make_board(carrier: &Carrier, shims: u32, lines: u32) -> Result<Board, Refusal>
    ensures { made_of result ≡ make_rule (carrier_lanes carrier.now).lanes shims lines }
{
    match carrier {
        Carrier::Ring(ring) => Board::new(ring, shims, lines),
        Carrier::Frames(frames) => Board::new(frames, shims, lines),
        Carrier::Staged(stage) => Board::new(stage, shims, lines),
    }
}
