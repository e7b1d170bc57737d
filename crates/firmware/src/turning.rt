// A chip's program that loads a line which its shim does not hold, and turns until the word is there.
use crate::console::Console;
use crate::scene::{HEATER, STEP};
use board::Board;
use fabric::{Fabric, LANES_PER_SHIM};
use handles::{Handle, Ready, Waiting};
use rules::{Refusal, Strength};

// The lane that comes down to the heater's shim.
const DOWN: usize = LANES_PER_SHIM * HEATER as usize + 1;

pub(crate) fn run<F: Fabric>(
    console: &mut Console,
    board: &mut Board,
    fabric: &mut F,
) -> Result<(), Refusal> {
    let ready = Ready::claim(board, HEATER)?;
    // From here on a `?` would let the handle go, so every path hands it back.
    match load_and_wait(console, ready, board, fabric) {
        // The shim holds the line now, and a load of it is answered at once.
        Handle::Ready(ready) => load(console, ready, board, fabric).hand_back(board),
        Handle::Waiting(waiting) => waiting.hand_back(board),
    }
    Ok(())
}

// Loads the step. Where the shim has to wait for it, the handle comes back waiting.
fn load<F: Fabric>(
    console: &mut Console,
    ready: Ready,
    board: &mut Board,
    fabric: &mut F,
) -> Handle {
    let (handle, outcome) = ready.load(board, fabric, STEP, u8::from(Strength::Relaxed));
    console.tell("the heater loads the step", outcome);
    handle
}

// Loads the step, and where the shim has to wait for it, turns until it is there.
fn load_and_wait<F: Fabric>(
    console: &mut Console,
    ready: Ready,
    board: &mut Board,
    fabric: &mut F,
) -> Handle {
    match load(console, ready, board, fabric) {
        Handle::Ready(ready) => Handle::Ready(ready),
        Handle::Waiting(waiting) => {
            // This is the hub's part, and no call of the chip's. The answer comes behind what is on its way already.
            console.tell("the hub performs the request", board.up(fabric, HEATER));
            turn_until_ready(console, waiting, board, fabric)
        }
    }
}

// Turns until the wait has ended. Each turn that is not refused takes a message off the lane, so that no more are made than messages are on it.
fn turn_until_ready<F: Fabric>(
    console: &mut Console,
    mut waiting: Waiting,
    board: &mut Board,
    fabric: &mut F,
) -> Handle {
    for _ in 0..fabric.waiting(DOWN) {
        let (handle, outcome) = waiting.turn(board, fabric);
        console.tell("the heater turns", outcome);
        match handle {
            Handle::Ready(ready) => return Handle::Ready(ready),
            Handle::Waiting(still) => waiting = still,
        }
    }
    Handle::Waiting(waiting)
}
