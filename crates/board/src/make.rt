ghost use Rattle.std.specs.Prelude.{◌≡◌};
ghost use Rattle.rules.specs.Make.{any_waits, make_rule};
ghost use Rattle.rules.specs.State.{fresh_state};
ghost use Rattle.board.specs.Made.{made_of};

use crate::board::Board;
use crate::lanes::lane_count;
use fabric::Fabric;
use rules::{Refusal, Size, State, is_board_size};

impl Board {
    // A board of so many shims and lines over a fabric.
    pub fn new<F: Fabric>(fabric: &F, shims: u32, lines: u32) -> Result<Board, Refusal>
        ensures { made_of result ≡ make_rule (F.Fabric.model fabric.now).lanes shims lines }
    {
        if !is_board_size(shims, lines) {
            return Err(Refusal::WrongSize);
        }
        let size = Size {
            shims: shims as usize,
            lines: lines as usize,
        };
        let lanes = lane_count(size.shims);
        if fabric.lane_count() != lanes {
            return Err(Refusal::WrongSize);
        }
        if any_waits(fabric, lanes) {
            return Err(Refusal::MessageWaits);
        }
        Ok(Board {
            size,
            state: fresh(),
        })
    }
}

// Whether a message waits on one of the first lanes.
fn any_waits<F: Fabric>(fabric: &F, lanes: usize) -> bool
    ensures { result ≡ any_waits (F.Fabric.model fabric.now).lanes lanes }
{
    (0..lanes).any(|lane| fabric.waiting(lane) > 0)
}

// The state of a board at first: the default of each part. It stands apart, so that `Board::new` proves from this one fact.
fn fresh() -> State
    ensures { result ≡ fresh_state }
{
    State::default()
}
