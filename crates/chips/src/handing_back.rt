// Handing back, and handles that come to another board than their own.
use crate::ask::*;
use crate::call::*;
use crate::stand::{SHIMS, Stand};
use crate::twin::same;
use board::Board;
use handles::Ready;
use rules::{Answer, Kind};
use std::process::Abort;
use std::test::*;

// The next chip has a ready handle of a shim that waits: its calls are refused until a down ends the wait.
#[test]
fn a_shim_that_waits_goes_on_waiting(rt: HostRuntime) -> Result<(), Fail> {
    let mut stand = Stand::after(&[store(0, 0, 7), up(0)])?;
    wait(&rt, &mut stand, Ask::Load(0, RLX))?.hand_back(&mut stand.board);
    let handle = Ready::claim(&mut stand.board, 1)?;
    let (handle, early) = handle.load(&mut stand.board, &mut stand.ring, 0, RLX);
    let handle = as_ready(&rt, handle);
    assert_eq!(rt; stand.call(up(1)), Ok(Answer::Handled(Kind::ReadRequest)));
    assert_eq!(rt; stand.call(down(1)), Ok(Answer::Value(7)));
    let (handle, late) = handle.load(&mut stand.board, &mut stand.ring, 0, RLX);
    handle.hand_back(&mut stand.board);
    assert_eq!(rt; told(early), Err(6));
    assert_eq!(rt; late, Ok(Answer::Value(7)));
    Ok(())
}

// A ready one, and then a waiting one.
#[test]
fn a_handle_ends_the_claim_as_a_call_gave_it(rt: HostRuntime) -> Result<(), Fail> {
    let mut stand = Stand::new(SHIMS)?;
    for (ask, answer) in [
        (Ask::Store(0, RLX, 5), Answer::Done),
        (Ask::Load(1, RLX), Answer::Waits),
    ] {
        let first = Ready::claim(&mut stand.board, 1)?;
        let (handle, outcome) = make(first, ask, &mut stand.board, &mut stand.ring);
        handle.hand_back(&mut stand.board);
        assert_eq!(rt; outcome, Ok(answer));
        assert_eq!(rt; claim(&mut stand.board, 1), Ok(()));
    }
    Ok(())
}

// Two chips hand their handles of shim 1, a ready and a waiting one, to a board that did not give them. Their own boards keep the claims.
fn hand_two_to(rt: &impl Abort, other: &mut Board) -> Result<(), Fail> {
    let mut stand = Stand::new(SHIMS)?;
    Ready::claim(&mut stand.board, 1)?.hand_back(other);
    assert_eq!(rt; claim(&mut stand.board, 1), Err(13));
    let mut stand = Stand::new(SHIMS)?;
    wait(rt, &mut stand, Ask::Fence(SC))?.hand_back(other);
    assert_eq!(rt; claim(&mut stand.board, 1), Err(13));
    Ok(())
}

// Shim 0 stays claimed there.
#[test]
fn to_a_board_without_that_shim(rt: HostRuntime) -> Result<(), Fail> {
    let mut small = Stand::new(1)?;
    let mut twin = Stand::new(1)?;
    small.board.claim(0)?;
    twin.board.claim(0)?;
    hand_two_to(&rt, &mut small.board)?;
    same(&rt, &mut small, &mut twin);
    assert_eq!(rt; claim(&mut small.board, 0), Err(13));
    Ok(())
}

// Shim 1 waits there too, and goes on waiting; shim 0 stays claimed.
#[test]
fn to_a_board_without_that_claim(rt: HostRuntime) -> Result<(), Fail> {
    let mut other = Stand::after(&[load(1, 0)])?;
    let mut twin = Stand::after(&[load(1, 0)])?;
    other.board.claim(0)?;
    twin.board.claim(0)?;
    hand_two_to(&rt, &mut other.board)?;
    same(&rt, &mut other, &mut twin);
    assert_eq!(rt; claim(&mut other.board, 0), Err(13));
    assert_eq!(rt; claim(&mut other.board, 1), Ok(()));
    Ok(())
}

// A handle knows no board: on one with that claim it ends that claim, and its own board keeps its own.
#[test]
fn to_a_board_with_that_claim(rt: HostRuntime) -> Result<(), Fail> {
    let mut other = Stand::new(SHIMS)?;
    other.board.claim(1)?;
    hand_two_to(&rt, &mut other.board)?;
    assert_eq!(rt; claim(&mut other.board, 1), Ok(()));
    Ok(())
}

// Its own board is as it was, but for the claim.
#[test]
fn a_call_on_another_board_is_made_there(rt: HostRuntime) -> Result<(), Fail> {
    let mut stand = Stand::new(SHIMS)?;
    let mut twin = Stand::new(SHIMS)?;
    let mut other = Stand::new(SHIMS)?;
    let first = Ready::claim(&mut stand.board, 1)?;
    let (handle, stored) = first.store(&mut other.board, &mut other.ring, 0, RLX, 5);
    let (handle, loaded) = as_ready(&rt, handle).load(&mut other.board, &mut other.ring, 0, RLX);
    handle.hand_back(&mut stand.board);
    assert_eq!(rt; stored, Ok(Answer::Done));
    assert_eq!(rt; loaded, Ok(Answer::Value(5)));
    assert_eq!(rt; other.call(up(1)), Ok(Answer::Handled(Kind::Write)));
    same(&rt, &mut stand, &mut twin);
    Ok(())
}

// The shim waits there, and not on the handle's own board.
#[test]
fn a_call_on_another_board_is_refused_by_its_rules(rt: HostRuntime) -> Result<(), Fail> {
    let mut stand = Stand::new(SHIMS)?;
    let mut other = Stand::after(&[load(1, 0)])?;
    let first = Ready::claim(&mut stand.board, 1)?;
    let (handle, there) = first.load(&mut other.board, &mut other.ring, 0, RLX);
    let (handle, here) = as_ready(&rt, handle).load(&mut stand.board, &mut stand.ring, 0, RLX);
    handle.hand_back(&mut stand.board);
    assert_eq!(rt; told(there), Err(6));
    assert_eq!(rt; here, Ok(Answer::Waits));
    Ok(())
}
