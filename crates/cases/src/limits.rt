// What a board says at its limits.
use board::Board;
use fabric::Fabric;
use ring::Ring;
use rules::{Answer, Outcome, Refusal, Strength, store_request};

// A store to this line of a board of 64.
pub(crate) fn store_to(line: u32) -> Outcome {
    let mut ring = Ring::new(1);
    let mut board = Board::new(&ring, 1, 64)?;
    board.store(&mut ring, 0, line, u8::from(Strength::Relaxed), 1)
}

// So many stores to one line, each performed at the hub, and what the last of them was told.
fn stores(board: &mut Board, ring: &mut Ring, count: u32) -> Outcome {
    let mut answer = Answer::Done;
    for value in 0..count {
        answer = board.store(ring, 0, 0, u8::from(Strength::Relaxed), value)?;
        board.up(ring, 0)?;
    }
    Ok(answer)
}

// What a million stores lead to: what the last was told, what the next is told, and what the hub says to one more that was put
// on the lane by hand.
pub(crate) fn million_stores() -> Result<[Outcome; 3], Refusal> {
    let mut ring = Ring::new(1);
    let mut board = Board::new(&ring, 1, 1)?;
    let last = stores(&mut board, &mut ring, 1_000_000);
    let next = stores(&mut board, &mut ring, 1);
    ring.put(0, store_request(0, 0, Strength::Relaxed, true, 1))?;
    let by_hand = board.up(&mut ring, 0);
    Ok([last, next, by_hand])
}
