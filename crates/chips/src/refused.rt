// Calls through a ready handle that are refused. The handle is a ready one after each: it makes the next.
use crate::ask::*;
use crate::call::*;
use crate::stand::{SHIMS, Stand};
use crate::twin::{same, same_lanes};
use board::Board;
use fabric::{Fabric, FabricFault, Message};
use handles::Ready;
use ring::{RING_CAPACITY, Ring};
use rules::{Answer, Call, Kind, Refusal, STAMP_LIMIT};
use std::process::Abort;
use std::test::*;

// The board refuses each of these by this number, and the handle comes back ready.
fn refuses_each(
    rt: &impl Abort,
    first: Ready,
    board: &mut Board,
    ring: &mut Ring,
    asks: &[Ask],
    number: u8,
) -> Ready {
    let mut handle = first;
    for ask in asks {
        let (after, outcome) = make(handle, *ask, board, ring);
        assert_eq!(rt; told(outcome), Err(number), "{ask:?}");
        handle = as_ready(rt, after);
    }
    handle
}

// A stand refuses each of these by this number to the handle of shim 1, which stays claimed meanwhile. Afterwards it is as its twin, which was not asked.
fn refused_on(
    rt: &impl Abort,
    stand: &mut Stand,
    twin: &mut Stand,
    asks: &[Ask],
    number: u8,
) -> Result<(), Fail> {
    let first = Ready::claim(&mut stand.board, 1)?;
    let last = refuses_each(rt, first, &mut stand.board, &mut stand.ring, asks, number);
    assert_eq!(rt; claim(&mut stand.board, 1), Err(13));
    last.hand_back(&mut stand.board);
    same(rt, stand, twin);
    Ok(())
}

// So it is on a stand on which these calls were made.
fn refused(rt: &impl Abort, calls: &[Call], asks: &[Ask], number: u8) -> Result<(), Fail> {
    let mut stand = Stand::after(calls)?;
    let mut twin = Stand::after(calls)?;
    refused_on(rt, &mut stand, &mut twin, asks, number)
}

#[test]
fn over_a_ring_of_another_board(rt: HostRuntime) -> Result<(), Fail> {
    let mut stand = Stand::new(SHIMS)?;
    let mut twin = Stand::new(SHIMS)?;
    let mut handle = Ready::claim(&mut stand.board, 1)?;
    for shims in [0, 1, 3, 8, 9] {
        let mut other = Ring::new(shims);
        handle = refuses_each(&rt, handle, &mut stand.board, &mut other, &EACH_KIND, 1);
        same_lanes(&rt, &mut other, &mut Ring::new(shims));
    }
    handle.hand_back(&mut stand.board);
    same(&rt, &mut stand, &mut twin);
    Ok(())
}

#[test]
fn by_a_handle_of_a_board_with_more_shims(rt: HostRuntime) -> Result<(), Fail> {
    let mut large = Stand::new(SHIMS + 1)?;
    let mut stand = Stand::new(SHIMS)?;
    let mut twin = Stand::new(SHIMS)?;
    let first = Ready::claim(&mut large.board, SHIMS)?;
    let last = refuses_each(&rt, first, &mut stand.board, &mut stand.ring, &EACH_KIND, 3);
    last.hand_back(&mut large.board);
    same(&rt, &mut stand, &mut twin);
    Ok(())
}

// Among the lines one that would be line 0 in fewer bits.
#[test]
fn of_a_line_that_is_not_there(rt: HostRuntime) -> Result<(), Fail> {
    for line in [3, 64, 256, u32::MAX] {
        let asks = [
            Ask::Load(line, RLX),
            Ask::Store(line, RLX, 5),
            Ask::Evict(line),
        ];
        refused(&rt, &[], &asks, 4)?;
    }
    Ok(())
}

// The last two would be a strength in fewer bits.
#[test]
fn of_a_strength_that_is_not_taken(rt: HostRuntime) -> Result<(), Fail> {
    let asks = [
        Ask::Load(0, REL),
        Ask::Store(0, ACQ, 5),
        Ask::Fence(RLX),
        Ask::Fence(ACQ),
        Ask::Fence(REL),
    ];
    refused(&rt, &[], &asks, 5)?;
    for strength in [4, 16 + RLX, 16 + SC] {
        let asks = [
            Ask::Load(0, strength),
            Ask::Store(0, strength, 5),
            Ask::Fence(strength),
        ];
        refused(&rt, &[], &asks, 5)?;
    }
    Ok(())
}

// The handle that waits is handed back, and the shim claimed again. It holds line 0, settled: all four would be accepted.
#[test]
fn by_a_shim_that_waits(rt: HostRuntime) -> Result<(), Fail> {
    let held = [load(1, 0), up(1), down(1)];
    for ask in [Ask::Load(1, RLX), Ask::Store(1, SC, 5), Ask::Fence(SC)] {
        let mut stand = Stand::after(&held)?;
        let mut twin = Stand::after(&held)?;
        wait(&rt, &mut stand, ask)?.hand_back(&mut stand.board);
        wait(&rt, &mut twin, ask)?.hand_back(&mut twin.board);
        refused_on(&rt, &mut stand, &mut twin, &EACH_KIND, 6)?;
    }
    Ok(())
}

#[test]
fn an_eviction_of_a_line_not_held(rt: HostRuntime) -> Result<(), Fail> {
    let asks = [Ask::Evict(0), Ask::Evict(2)];
    refused(&rt, &[], &asks, 7)?;
    refused(&rt, &[load(0, 0), up(0), down(0)], &asks, 7)?;
    refused(&rt, &[load(1, 0), up(1), down(1), evict(1, 0)], &asks, 7)
}

#[test]
fn an_eviction_of_an_unsettled_line(rt: HostRuntime) -> Result<(), Fail> {
    refused(&rt, &[store(1, 0, 5)], &[Ask::Evict(0)], 8)?;
    refused(&rt, &[store(1, 0, 5), up(1)], &[Ask::Evict(0)], 8)
}

// A hand answers the load in the place of the hub, with the last stamp there is. Another line can still be stored to.
#[test]
fn a_store_to_a_line_at_the_last_stamp(rt: HostRuntime) -> Result<(), Fail> {
    let mut stand = at_the_last_stamp()?;
    let mut twin = at_the_last_stamp()?;
    let asks = [Ask::Store(0, RLX, 5), Ask::Store(0, SC, 5)];
    refused_on(&rt, &mut stand, &mut twin, &asks, 9)?;
    let mut stand = at_the_last_stamp()?;
    assert_eq!(rt; stand.call(store(1, 1, 5)), Ok(Answer::Done));
    Ok(())
}

// A stand whose shim 1 holds line 0, settled at the last stamp.
fn at_the_last_stamp() -> Result<Stand, Fail> {
    let mut stand = Stand::after(&[load(1, 0)])?;
    stand.ring.take(2)?;
    stand.ring.put(
        3,
        Message {
            kind: u8::from(Kind::ReadResponse),
            line: 0,
            mark: RLX,
            sender: 1,
            value: 7,
            stamp: STAMP_LIMIT,
        },
    )?;
    stand.call(down(1))?;
    Ok(stand)
}

// The last store that is good goes through the handle. Line 1 was never stored to: there it is the number of stores alone that refuses.
#[test]
fn the_store_after_the_millionth(rt: HostRuntime) -> Result<(), Fail> {
    let mut stand = after_stores(999_999)?;
    let mut twin = after_stores(1_000_000)?;
    let first = Ready::claim(&mut stand.board, 1)?;
    let (handle, outcome) = make(
        first,
        Ask::Store(0, RLX, 5),
        &mut stand.board,
        &mut stand.ring,
    );
    as_ready(&rt, handle).hand_back(&mut stand.board);
    assert_eq!(rt; outcome, Ok(Answer::Done));
    assert_eq!(rt; stand.call(up(1)), Ok(Answer::Handled(Kind::Write)));
    let asks = [Ask::Store(0, RLX, 5), Ask::Store(1, SC, 5)];
    refused_on(&rt, &mut stand, &mut twin, &asks, 9)
}

// Shim 1 stored 5 to line 0 so many times, and each store was performed.
fn after_stores(count: u32) -> Result<Stand, Fail> {
    let mut stand = Stand::new(SHIMS)?;
    for _ in 0..count {
        stand.call(store(1, 0, 5))?;
        stand.call(up(1))?;
    }
    Ok(stand)
}

// A load of the line that is held needs no room.
#[test]
fn where_the_up_lane_is_full(rt: HostRuntime) -> Result<(), Fail> {
    let mut stand = full()?;
    let mut twin = full()?;
    let asks = [
        Ask::Load(1, RLX),
        Ask::Store(0, RLX, 5),
        Ask::Store(1, SC, 5),
        Ask::Fence(SC),
        Ask::Evict(0),
    ];
    refused_on(&rt, &mut stand, &mut twin, &asks, 10)?;
    let mut stand = full()?;
    let first = Ready::claim(&mut stand.board, 1)?;
    let (handle, missed) = first.load(&mut stand.board, &mut stand.ring, 1, RLX);
    let (handle, held) = as_ready(&rt, handle).load(&mut stand.board, &mut stand.ring, 0, RLX);
    handle.hand_back(&mut stand.board);
    assert_eq!(rt; missed, Err(Refusal::Fabric(FabricFault::Full(2))));
    assert_eq!(rt; held, Ok(Answer::Value(5)));
    Ok(())
}

// Shim 1 holds line 0, settled, and has filled its up lane with stores to it.
fn full() -> Result<Stand, Fail> {
    let mut stand = Stand::after(&[load(1, 0), up(1), down(1)])?;
    for _ in 0..RING_CAPACITY {
        stand.call(store(1, 0, 5))?;
    }
    Ok(stand)
}

// Shim 1 waits, and each of these would be refused for more than one reason.
#[test]
fn by_the_first_of_several_refusals(rt: HostRuntime) -> Result<(), Fail> {
    let asks = [Ask::Load(3, REL), Ask::Store(3, ACQ, 5), Ask::Evict(3)];
    refused(&rt, &[load(1, 1)], &asks, 4)?;
    let asks = [Ask::Load(0, REL), Ask::Store(0, ACQ, 5), Ask::Fence(RLX)];
    refused(&rt, &[load(1, 1)], &asks, 5)?;
    refused(&rt, &[load(1, 1)], &[Ask::Evict(0)], 6)
}
