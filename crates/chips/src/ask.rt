// What the program of a chip asks through its handle, and what it is told.
use crate::stand::Stand;
use board::Board;
use fabric::Word;
use handles::{Handle, Ready, Waiting};
use ring::Ring;
use rules::{Answer, Outcome, Refusal};
use std::process::Abort;

// The strengths by number, as a call carries them.
pub(crate) const RLX: u8 = 0;

pub(crate) const ACQ: u8 = 1;

pub(crate) const REL: u8 = 2;

pub(crate) const SC: u8 = 3;

// A call through a ready handle.
#[derive(Clone, Copy, Debug)]
pub(crate) enum Ask {
    // A line and a strength.
    Load(u32, u8),
    Store(u32, u8, Word),
    // A strength.
    Fence(u8),
    // A line.
    Evict(u32),
}

// One of each kind.
pub(crate) const EACH_KIND: [Ask; 4] = [
    Ask::Load(0, RLX),
    Ask::Store(0, RLX, 5),
    Ask::Fence(SC),
    Ask::Evict(0),
];

// One of each kind that waits, on a line that the shim does not hold.
pub(crate) const EACH_WAIT: [Ask; 3] = [Ask::Load(0, RLX), Ask::Store(0, SC, 5), Ask::Fence(SC)];

// Makes the call.
pub(crate) fn make(
    ready: Ready,
    ask: Ask,
    board: &mut Board,
    ring: &mut Ring,
) -> (Handle, Outcome) {
    match ask {
        Ask::Load(line, strength) => ready.load(board, ring, line, strength),
        Ask::Store(line, strength, value) => ready.store(board, ring, line, strength, value),
        Ask::Fence(strength) => ready.fence(board, ring, strength),
        Ask::Evict(line) => {
            let (ready, outcome) = ready.evict(board, ring, line);
            (Handle::Ready(ready), outcome)
        }
    }
}

// Claims shim 1 and makes a call that waits.
pub(crate) fn wait(rt: &impl Abort, stand: &mut Stand, ask: Ask) -> Result<Waiting, Refusal> {
    let first = Ready::claim(&mut stand.board, 1)?;
    let (handle, outcome) = make(first, ask, &mut stand.board, &mut stand.ring);
    assert_eq!(rt; outcome, Ok(Answer::Waits), "{ask:?}");
    Ok(as_waiting(rt, handle))
}

// What the board said, a refusal by its number.
pub(crate) fn told(outcome: Outcome) -> Result<Answer, u8> {
    outcome.map_err(|refusal| u8::from(refusal))
}

// What a claim of the shim is told. One that is granted is handed back at once.
pub(crate) fn claim(board: &mut Board, shim: u32) -> Result<(), u8> {
    match Ready::claim(board, shim) {
        Ok(ready) => {
            ready.hand_back(board);
            Ok(())
        }
        Err(refusal) => Err(u8::from(refusal)),
    }
}

// The handle, which is a ready one.
pub(crate) fn as_ready(rt: &impl Abort, handle: Handle) -> Ready {
    let Handle::Ready(ready) = handle else {
        panic!(rt; "the handle is a waiting one");
    };
    ready
}

// The handle, which is a waiting one.
pub(crate) fn as_waiting(rt: &impl Abort, handle: Handle) -> Waiting {
    let Handle::Waiting(waiting) = handle else {
        panic!(rt; "the handle is a ready one");
    };
    waiting
}
