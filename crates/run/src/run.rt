ghost use Rattle.std.specs.Prelude.{◌≡◌};
ghost use Rattle.run.specs.Whole.{left_by, whole_rule, Ordered};

use board::Board;
use fabric::Fabric;
use rules::{Event, Refusal};

// Makes a board over a fabric, and does on it what a list asks, one event after the other. Each event is given what the board said.
pub fn run_events<F: Fabric>(
    shims: u32,
    lines: u32,
    fabric: &mut F,
    events: &mut [Event],
) -> Result<Board, Refusal>
    ensures lender { F.Fabric.lender fabric.new ≡ F.Fabric.lender fabric.old }
    ensures rules { left_by result events.new (F.Fabric.model fabric.new) ≡ whole_rule F.Fabric.backing (F.Fabric.model fabric.old) shims lines events.old }
    ensures order { Ordered result events.new (F.Fabric.model fabric.new).lanes }
{
    let mut board = Board::new(&*fabric, shims, lines)?;
    for event in events.iter_mut() {
        event.outcome = Some(board.act(fabric, event.action));
    }
    Ok(board)
}
