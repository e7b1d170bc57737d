// A foreign message is refused, and nothing changes.
use crate::check::check_eq;
use crate::stand::{LINES, Stand};
use crate::step::*;
use fabric::Message;
use rules::Refusal;
use std::test::*;

// On a board after these steps, shim 1's up refuses the message as foreign.
pub(crate) fn refused_up(steps: &[Step], msg: Message) -> Result<(), Fail> {
    refused_after(steps, up(1), UP, msg)
}

// On a board after these steps, shim 1's down refuses the message as foreign.
pub(crate) fn refused_down(steps: &[Step], msg: Message) -> Result<(), Fail> {
    refused_after(steps, down(1), DOWN, msg)
}

fn refused_after(steps: &[Step], call: Step, lane: usize, msg: Message) -> Result<(), Fail> {
    let mut stand = Stand::after(steps)?;
    let mut twin = Stand::after(steps)?;
    refused(&mut stand, &mut twin, call, lane, msg)
}

// The call refuses the message as foreign, which a hand put on its lane. The message stays there, every other lane is as on the twin,
// which never had it, and once it is taken off, so is all that comes.
pub(crate) fn refused(
    stand: &mut Stand,
    twin: &mut Stand,
    call: Step,
    lane: usize,
    msg: Message,
) -> Result<(), Fail> {
    stand.act(Step::Put(lane, msg))?;
    let foreign = Refusal::Foreign(lane);
    check_eq(u8::from(foreign), 12)?;
    check_eq(stand.act(call), Err(foreign))?;
    stand.has_alone(twin, lane, msg)?;
    stand.act(Step::Take(lane))?;
    same_later(stand, twin)
}

// Both stands answer alike to all that comes: first to what is under way, then to every kind of call on every line.
fn same_later(stand: &mut Stand, twin: &mut Stand) -> Result<(), Fail> {
    stand.agrees(
        twin,
        &[up(1), up(1), down(1), down(1), up(0), down(0), down(0)],
    )?;
    for line in 0..LINES {
        stand.agrees(twin, &line_calls(line))?;
    }
    stand.agrees(twin, &[fence(0), up(0), down(0), down(1)])
}

// Calls on a line that show what the hub and both shims have of it: who holds it, the words, and by the updates the stamps.
fn line_calls(line: u32) -> [Step; 25] {
    [
        load(1, line),
        up(1),
        down(1),
        load(0, line),
        up(0),
        down(0),
        store(0, line, 101),
        up(0),
        down(0),
        down(1),
        load(1, line),
        store(1, line, 102),
        up(1),
        down(1),
        down(0),
        load(0, line),
        sc_store(1, line, 103),
        up(1),
        down(1),
        down(0),
        load(0, line),
        evict(1, line),
        up(1),
        evict(0, line),
        up(0),
    ]
}
