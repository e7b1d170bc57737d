// A chip's program that claims its shim, stores a word and hands its handle back, so that the shim can be claimed again.
use crate::console::Console;
use crate::scene::{PANEL, STEP};
use board::Board;
use fabric::Fabric;
use handles::Ready;
use rules::{Answer, Outcome, Refusal, Strength};

pub(crate) fn run<F: Fabric>(
    console: &mut Console,
    board: &mut Board,
    fabric: &mut F,
) -> Result<(), Refusal> {
    let ready = Ready::claim(board, PANEL)?;
    console.tell("another claim of the panel's shim", claim_once(board));
    let (handle, outcome) = ready.store(board, fabric, STEP, u8::from(Strength::Relaxed), 170);
    console.tell("the panel stores 170 to the step", outcome);
    handle.hand_back(board);
    console.tell("a claim once the panel has handed back", claim_once(board));
    Ok(())
}

// Claims the panel's shim and hands it back at once.
fn claim_once(board: &mut Board) -> Outcome {
    let ready = Ready::claim(board, PANEL)?;
    ready.hand_back(board);
    Ok(Answer::Done)
}
