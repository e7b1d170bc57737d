// Two stands that are alike, as far as calls and claims can tell.
use crate::ask::claim;
use crate::call::*;
use crate::stand::{LINES, SHIMS, Stand};
use board::Board;
use fabric::Fabric;
use ring::{RING_CAPACITY, Ring};
use rules::Call;
use std::process::Abort;

// Both stands have the same on their lanes, answer alike to all that comes, first to what is under way and then to calls on every line, and have the same claims.
// These come last, since to look at one is to claim the shim and to hand it back.
pub(crate) fn same(rt: &impl Abort, stand: &mut Stand, twin: &mut Stand) {
    same_lanes(rt, &mut stand.ring, &mut twin.ring);
    agree_under_way(rt, stand, twin);
    for line in 0..LINES {
        agree(rt, stand, twin, &line_calls(line));
    }
    agree(rt, stand, twin, &[fence(0), up(0), down(0), down(1)]);
    same_claims(rt, &mut stand.board, &mut twin.board);
}

// Both boards tell a claim of each shim the same.
fn same_claims(rt: &impl Abort, board: &mut Board, twin: &mut Board) {
    for shim in 0..SHIMS {
        assert_eq!(rt; claim(board, shim), claim(twin, shim), "shim {shim}");
    }
}

// Both stands answer alike until no lane has a message any more, whatever was on it.
fn agree_under_way(rt: &impl Abort, stand: &mut Stand, twin: &mut Stand) {
    for _ in 0..2 * RING_CAPACITY {
        agree(rt, stand, twin, &[up(1), down(1), up(0), down(0)]);
    }
}

// Both stands answer alike to each call, and have the same on their lanes after it.
fn agree(rt: &impl Abort, stand: &mut Stand, twin: &mut Stand, calls: &[Call]) {
    for call in calls {
        assert_eq!(rt; stand.call(*call), twin.call(*call));
        same_lanes(rt, &mut stand.ring, &mut twin.ring);
    }
}

// Both rings have as many messages on each lane, and the same first one.
pub(crate) fn same_lanes(rt: &impl Abort, ring: &mut Ring, twin: &mut Ring) {
    for lane in 0..ring.lane_count() {
        assert_eq!(rt; ring.waiting(lane), twin.waiting(lane), "lane {lane}");
        assert_eq!(rt; ring.look(lane), twin.look(lane), "lane {lane}");
    }
}

// Calls on a line that show what the hub and both shims have of it: who holds it, the words, and by the updates the stamps.
fn line_calls(line: u32) -> [Call; 17] {
    [
        load(1, line),
        up(1),
        down(1),
        store(0, line, 101),
        up(0),
        down(0),
        down(1),
        load(1, line),
        sc_store(1, line, 102),
        up(1),
        down(1),
        down(0),
        load(0, line),
        evict(1, line),
        up(1),
        store(0, line, 103),
        up(0),
    ]
}
