// The board that the programs find.
use board::Board;
use fabric::Fabric;
use rules::{Refusal, Strength};

pub(crate) const SHIMS: u32 = 2;

const LINES: u32 = 2;

pub(crate) const PANEL: u32 = 0;

pub(crate) const HEATER: u32 = 1;

// The lines: a step of the ramp, and the ready word.
pub(crate) const STEP: u32 = 0;

const READY: u32 = 1;

// The heater's shim holds the ready word. The panel has stored the step and then the ready word, and the update of that word is on its way to the heater.
pub(crate) fn board_with_an_update<F: Fabric>(fabric: &mut F) -> Result<Board, Refusal> {
    let mut board = Board::new(&*fabric, SHIMS, LINES)?;
    board.load(fabric, HEATER, READY, u8::from(Strength::Acquire))?;
    board.up(fabric, HEATER)?;
    board.down(fabric, HEATER)?;
    board.store(fabric, PANEL, STEP, u8::from(Strength::Relaxed), 150)?;
    board.store(fabric, PANEL, READY, u8::from(Strength::Release), 1)?;
    board.up(fabric, PANEL)?;
    board.up(fabric, PANEL)?;
    Ok(board)
}
