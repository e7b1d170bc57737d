// Turns of a shim through its waiting handle.
use crate::ask::*;
use crate::call::*;
use crate::stand::{SHIMS, Stand};
use crate::twin::{same, same_lanes};
use board::Board;
use fabric::{Fabric, FabricFault, Message};
use handles::{Ready, Waiting};
use ring::Ring;
use rules::{Answer, Kind, Refusal, fence_request};
use std::process::Abort;
use std::test::*;

// The board refuses the turn by this number, and the handle still waits.
fn refuses(
    rt: &impl Abort,
    handle: Waiting,
    board: &mut Board,
    ring: &mut Ring,
    number: u8,
) -> Waiting {
    let (after, outcome) = handle.turn(board, ring);
    assert_eq!(rt; told(outcome), Err(number));
    as_waiting(rt, after)
}

// The board refuses the turn by 14, for the shim waits for nothing, and the handle comes back ready.
fn finds_no_wait(rt: &impl Abort, handle: Waiting, board: &mut Board, ring: &mut Ring) -> Ready {
    let (after, outcome) = handle.turn(board, ring);
    assert_eq!(rt; told(outcome), Err(14));
    as_ready(rt, after)
}

// A fence from a shim that is not there.
fn foreign() -> Message {
    Message {
        sender: 2,
        ..fence_request(1)
    }
}

// The shim is ready then too: it can fence.
#[test]
fn the_end_of_a_wait_gives_a_ready_handle(rt: HostRuntime) -> Result<(), Fail> {
    let ends = [
        (Ask::Load(0, RLX), Answer::Value(7)),
        (Ask::Store(0, SC, 5), Answer::Ended),
        (Ask::Fence(SC), Answer::Ended),
    ];
    for (ask, end) in ends {
        let mut stand = Stand::after(&[store(0, 0, 7), up(0)])?;
        let handle = wait(&rt, &mut stand, ask)?;
        stand.accepts(&rt, &[up(1)]);
        let (handle, outcome) = handle.turn(&mut stand.board, &mut stand.ring);
        assert_eq!(rt; outcome, Ok(end), "{ask:?}");
        let (handle, next) = as_ready(&rt, handle).fence(&mut stand.board, &mut stand.ring, SC);
        assert_eq!(rt; next, Ok(Answer::Waits), "{ask:?}");
        handle.hand_back(&mut stand.board);
    }
    Ok(())
}

// Shim 1 waits for a load of line 1, and before its answer come: the acknowledgement of its store to line 2, an update of line 0, which it holds,
// and a fence of shim 0.
#[test]
fn what_ends_no_wait_leaves_the_handle_waiting(rt: HostRuntime) -> Result<(), Fail> {
    let mut stand = Stand::after(&[load(1, 0), up(1), down(1), store(1, 2, 4)])?;
    let mut handle = wait(&rt, &mut stand, Ask::Load(1, RLX))?;
    stand.accepts(&rt, &[up(1), store(0, 0, 9), up(0), fence(0), up(0), up(1)]);
    for kind in [Kind::WriteAck, Kind::Write, Kind::FenceRequest] {
        let (after, outcome) = handle.turn(&mut stand.board, &mut stand.ring);
        assert_eq!(rt; outcome, Ok(Answer::Handled(kind)));
        handle = as_waiting(&rt, after);
    }
    let (after, end) = handle.turn(&mut stand.board, &mut stand.ring);
    let (after, updated) = as_ready(&rt, after).load(&mut stand.board, &mut stand.ring, 0, RLX);
    after.hand_back(&mut stand.board);
    assert_eq!(rt; end, Ok(Answer::Value(0)));
    assert_eq!(rt; updated, Ok(Answer::Value(9)));
    Ok(())
}

// The shim is looked for first, so a ring of another board makes no difference.
#[test]
fn on_a_board_with_fewer_shims(rt: HostRuntime) -> Result<(), Fail> {
    let mut stand = Stand::new(SHIMS)?;
    let mut small = Stand::new(1)?;
    let mut twin = Stand::new(1)?;
    let handle = wait(&rt, &mut stand, Ask::Load(0, RLX))?;
    let handle = refuses(&rt, handle, &mut small.board, &mut small.ring, 3);
    let handle = refuses(&rt, handle, &mut small.board, &mut stand.ring, 3);
    handle.hand_back(&mut stand.board);
    same(&rt, &mut small, &mut twin);
    Ok(())
}

#[test]
fn over_a_ring_of_another_board(rt: HostRuntime) -> Result<(), Fail> {
    for ask in EACH_WAIT {
        let mut stand = Stand::new(SHIMS)?;
        let mut twin = Stand::new(SHIMS)?;
        let mut other = Ring::new(1);
        wait(&rt, &mut twin, ask)?.hand_back(&mut twin.board);
        let handle = wait(&rt, &mut stand, ask)?;
        let handle = refuses(&rt, handle, &mut stand.board, &mut other, 1);
        handle.hand_back(&mut stand.board);
        same_lanes(&rt, &mut other, &mut Ring::new(1));
        same(&rt, &mut stand, &mut twin);
    }
    Ok(())
}

// The shim's request is still on its way up.
#[test]
fn where_nothing_has_come(rt: HostRuntime) -> Result<(), Fail> {
    for ask in EACH_WAIT {
        let mut stand = Stand::new(SHIMS)?;
        let mut twin = Stand::new(SHIMS)?;
        wait(&rt, &mut twin, ask)?.hand_back(&mut twin.board);
        let handle = wait(&rt, &mut stand, ask)?;
        let handle = refuses(&rt, handle, &mut stand.board, &mut stand.ring, 11);
        let (after, outcome) = handle.turn(&mut stand.board, &mut stand.ring);
        as_waiting(&rt, after).hand_back(&mut stand.board);
        assert_eq!(rt; outcome, Err(Refusal::Fabric(FabricFault::Empty(3))));
        same(&rt, &mut stand, &mut twin);
    }
    Ok(())
}

// A hand puts it on the lane. It stays, and once the hand has taken it off, a turn ends the wait.
#[test]
fn where_a_foreign_message_comes(rt: HostRuntime) -> Result<(), Fail> {
    let mut stand = Stand::new(SHIMS)?;
    let handle = wait(&rt, &mut stand, Ask::Store(0, SC, 5))?;
    assert_eq!(rt; stand.ring.put(3, foreign()), Ok(()));
    stand.accepts(&rt, &[up(1)]);
    let handle = refuses(&rt, handle, &mut stand.board, &mut stand.ring, 12);
    let (after, outcome) = handle.turn(&mut stand.board, &mut stand.ring);
    assert_eq!(rt; outcome, Err(Refusal::Foreign(3)));
    assert_eq!(rt; stand.ring.take(3), Ok(foreign()));
    let (after, end) = as_waiting(&rt, after).turn(&mut stand.board, &mut stand.ring);
    as_ready(&rt, after).hand_back(&mut stand.board);
    assert_eq!(rt; end, Ok(Answer::Ended));
    Ok(())
}

// Whoever has the board may make the down that ends the wait. The chip learns of it by its next turn, and finds the line held.
#[test]
fn a_wait_that_a_down_has_ended(rt: HostRuntime) -> Result<(), Fail> {
    let mut stand = Stand::after(&[store(0, 0, 7), up(0)])?;
    let handle = wait(&rt, &mut stand, Ask::Load(0, RLX))?;
    stand.accepts(&rt, &[up(1), down(1)]);
    let handle = finds_no_wait(&rt, handle, &mut stand.board, &mut stand.ring);
    let (handle, outcome) = handle.load(&mut stand.board, &mut stand.ring, 0, RLX);
    handle.hand_back(&mut stand.board);
    assert_eq!(rt; outcome, Ok(Answer::Value(7)));
    Ok(())
}

// The ready handle goes back to its own board, where the shim waits all the while.
#[test]
fn on_a_board_where_the_shim_waits_for_nothing(rt: HostRuntime) -> Result<(), Fail> {
    for ask in EACH_WAIT {
        let mut stand = Stand::new(SHIMS)?;
        let mut other = Stand::new(SHIMS)?;
        let mut twin = Stand::new(SHIMS)?;
        let handle = wait(&rt, &mut stand, ask)?;
        let handle = finds_no_wait(&rt, handle, &mut other.board, &mut other.ring);
        let (handle, outcome) = handle.load(&mut stand.board, &mut stand.ring, 0, RLX);
        handle.hand_back(&mut stand.board);
        assert_eq!(rt; told(outcome), Err(6), "{ask:?}");
        same(&rt, &mut other, &mut twin);
    }
    Ok(())
}

// Where the shim waits for nothing, 14 comes before what a down says: 1 over a ring of another board, and 12 at a foreign message.
#[test]
fn no_wait_comes_before_what_a_down_says(rt: HostRuntime) -> Result<(), Fail> {
    let mut stand = Stand::new(SHIMS)?;
    let mut other = Stand::new(SHIMS)?;
    let handle = wait(&rt, &mut stand, Ask::Fence(SC))?;
    let handle = finds_no_wait(&rt, handle, &mut other.board, &mut Ring::new(1));
    handle.hand_back(&mut stand.board);
    let mut stand = Stand::new(SHIMS)?;
    other.ring.put(3, foreign())?;
    let handle = wait(&rt, &mut stand, Ask::Fence(SC))?;
    let handle = finds_no_wait(&rt, handle, &mut other.board, &mut other.ring);
    handle.hand_back(&mut stand.board);
    assert_eq!(rt; other.ring.take(3), Ok(foreign()));
    Ok(())
}
