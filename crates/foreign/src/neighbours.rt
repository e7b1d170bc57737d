// Messages next to the foreign ones, from a hand too, that are performed.
use crate::check::check_eq;
use crate::stand::Stand;
use crate::step::*;
use fabric::{Message, Word};
use rules::{Answer, Kind, STAMP_LIMIT};
use std::test::*;

// On a board after these steps, shim 1's down of the message answers so, and leaves line 0 settled with this word.
fn handed(steps: &[Step], msg: Message, answer: Answer, word: Word) -> Result<(), Fail> {
    let mut stand = Stand::after(steps)?;
    stand.act(Step::Put(DOWN, msg))?;
    check_eq(stand.act(down(1)), Ok(answer))?;
    check_eq(stand.act(load(1, 0)), Ok(Answer::Value(word)))?;
    check_eq(stand.act(evict(1, 0)), Ok(Answer::Done))
}

// Shim 1's up performs the message, and the lane down to the shim has so many messages then.
fn performed(msg: Message, kind: Kind, answers: usize) -> Result<(), Fail> {
    let mut stand = Stand::after(&[Step::Put(UP, msg)])?;
    check_eq(stand.act(up(1)), Ok(Answer::Handled(kind)))?;
    check_eq(stand.waiting(DOWN), answers)
}

const UPDATED: Answer = Answer::Handled(Kind::Write);

const ACKNOWLEDGED: Answer = Answer::Handled(Kind::WriteAck);

// Shim 1 is sent an update from itself, from the first shim, and of the last line.
#[test]
fn an_update_from_any_shim() -> Result<(), Fail> {
    handed(&settled(), from_shim(1, Kind::Write), UPDATED, 77)?;
    handed(&settled(), from_shim(0, Kind::Write), UPDATED, 77)?;
    handed(&settled(), on_line(2, Kind::Write), UPDATED, 0)
}

// A strength from 4 to 15 is not SC: it ends nothing, and an up of it owes no acknowledgement.
#[test]
fn strengths_that_are_none() -> Result<(), Fail> {
    handed(&settled(), with_mark(4, Kind::Write), UPDATED, 77)?;
    handed(&settled(), with_mark(15, Kind::Write), UPDATED, 77)?;
    handed(&[store(1, 0, 5)], ack(16 + 4), ACKNOWLEDGED, 5)?;
    handed(&[store(1, 0, 5)], ack(16 + 15), ACKNOWLEDGED, 5)?;
    performed(with_mark(4, Kind::Write), Kind::Write, 0)?;
    performed(with_mark(15, Kind::Write), Kind::Write, 0)
}

// Of a mark only the four low bits and the 16 are read.
#[test]
fn high_bits_of_a_mark() -> Result<(), Fail> {
    handed(&settled(), with_mark(0xE0, Kind::Write), UPDATED, 77)?;
    handed(&[store(1, 0, 5)], ack(0xE0 + 16), ACKNOWLEDGED, 5)?;
    handed(&settled_and_waiting(), ack(0xE0 + 3), Answer::Ended, 5)?;
    handed(&[sc_store(1, 0, 5)], ack(0xE0 + 19), Answer::Ended, 5)?;
    performed(with_mark(0xE0, Kind::Write), Kind::Write, 0)?;
    performed(with_mark(0xE0 + 3, Kind::Write), Kind::Write, 1)?;
    performed(with_mark(0xE0 + 16, Kind::Write), Kind::Write, 1)
}

#[test]
fn stamps_at_the_limit() -> Result<(), Fail> {
    let word = of_stamp(STAMP_LIMIT, Kind::ReadResponse);
    handed(&[load(1, 0)], word, Answer::Value(77), 77)?;
    let update = of_stamp(STAMP_LIMIT, Kind::Write);
    handed(&settled(), update, UPDATED, 77)?;
    let ask = of_stamp(STAMP_LIMIT, Kind::FenceRequest);
    handed(&settled(), ask, Answer::Handled(Kind::FenceRequest), 0)?;
    let sum = ack_of_stamp(STAMP_LIMIT - 1, 16);
    handed(&[store(1, 0, 5)], sum, ACKNOWLEDGED, 5)
}

// On a line that is not settled an update changes nothing, whatever its stamp.
#[test]
fn updates_of_a_line_not_settled() -> Result<(), Fail> {
    let mut stand = Stand::after(&[store(1, 0, 5), Step::Put(DOWN, message(Kind::Write))])?;
    check_eq(stand.act(down(1)), Ok(UPDATED))?;
    check_eq(stand.act(load(1, 0)), Ok(Answer::Value(5)))?;
    stand.act(Step::Put(DOWN, on_line(1, Kind::Write)))?;
    check_eq(stand.act(down(1)), Ok(UPDATED))?;
    check_eq(stand.act(load(1, 1)), Ok(Answer::Waits))
}

// The hub does not read the stamp of what goes up, and performs a request that no call made.
#[test]
fn requests_of_a_hand() -> Result<(), Fail> {
    performed(of_stamp(STAMP_LIMIT + 1, Kind::Write), Kind::Write, 0)?;
    performed(on_line(2, Kind::ReadRequest), Kind::ReadRequest, 1)?;
    performed(on_line(2, Kind::FenceRequest), Kind::FenceRequest, 1)?;
    performed(on_line(2, Kind::Drop), Kind::Drop, 0)
}
