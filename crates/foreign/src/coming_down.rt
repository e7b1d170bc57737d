// What is foreign on a down lane.
use crate::refused::refused_down;
use crate::step::*;
use fabric::Message;
use rules::{Kind, STAMP_LIMIT};
use std::test::*;

#[test]
fn a_read_request() -> Result<(), Fail> {
    refused_down(&[], message(Kind::ReadRequest))?;
    refused_down(&[load(1, 0)], message(Kind::ReadRequest))
}

#[test]
fn a_drop() -> Result<(), Fail> {
    refused_down(&[], message(Kind::Drop))?;
    refused_down(&settled(), message(Kind::Drop))
}

#[test]
fn kinds_that_are_none() -> Result<(), Fail> {
    let msg = message(Kind::Write);
    refused_down(&[], Message { kind: 0, ..msg })?;
    refused_down(&[], Message { kind: 8, ..msg })?;
    refused_down(&[], Message { kind: 255, ..msg })
}

#[test]
fn a_line_not_on_the_board() -> Result<(), Fail> {
    refused_down(&[], on_line(3, Kind::Write))?;
    refused_down(&[], on_line(255, Kind::Write))?;
    refused_down(&[], on_line(3, Kind::FenceRequest))
}

#[test]
fn a_sender_not_on_the_board() -> Result<(), Fail> {
    refused_down(&[], from_shim(2, Kind::Write))?;
    refused_down(&[], from_shim(255, Kind::Write))?;
    refused_down(&[], from_shim(2, Kind::FenceRequest))
}

#[test]
fn a_word_that_is_not_waited_for() -> Result<(), Fail> {
    refused_down(&[], message(Kind::ReadResponse))?;
    refused_down(&settled(), message(Kind::ReadResponse))?;
    refused_down(&[sc_store(1, 0, 5)], message(Kind::ReadResponse))?;
    refused_down(&[fence(1)], message(Kind::ReadResponse))
}

#[test]
fn a_word_of_another_line() -> Result<(), Fail> {
    refused_down(&[load(1, 1)], on_line(0, Kind::ReadResponse))?;
    refused_down(&[load(1, 1)], on_line(2, Kind::ReadResponse))
}

#[test]
fn a_fence_that_is_not_waited_for() -> Result<(), Fail> {
    refused_down(&[], message(Kind::FenceResponse))?;
    refused_down(&[load(1, 0)], message(Kind::FenceResponse))?;
    refused_down(&[sc_store(1, 0, 5)], message(Kind::FenceResponse))
}

#[test]
fn a_fence_on_another_line() -> Result<(), Fail> {
    refused_down(&[fence(1)], on_line(1, Kind::FenceResponse))?;
    refused_down(&[fence(1)], on_line(2, Kind::FenceResponse))
}

// The mark has neither the 16 nor SC: another strength, or only bits above the 16 beside it.
#[test]
fn an_acknowledgement_of_nothing() -> Result<(), Fail> {
    refused_down(&[store(1, 0, 5)], ack(0))?;
    refused_down(&[store(1, 0, 5)], ack(0b1110_0010))?;
    refused_down(&[sc_store(1, 0, 5)], ack(0))?;
    refused_down(&[sc_store(1, 0, 5)], ack(7))
}

#[test]
fn a_settling_of_a_line_not_held() -> Result<(), Fail> {
    refused_down(&[], ack(16))?;
    refused_down(&[store(1, 1, 5)], ack(16))
}

// Not even with SC while a store is waited for there.
#[test]
fn a_settling_of_a_settled_line() -> Result<(), Fail> {
    refused_down(&settled(), ack(16))?;
    refused_down(&settled_and_waiting(), ack(16))?;
    refused_down(&settled_and_waiting(), ack(19))
}

#[test]
fn an_end_of_a_store_that_is_not_waited_for() -> Result<(), Fail> {
    refused_down(&[], ack(3))?;
    refused_down(&[store(1, 0, 5)], ack(19))?;
    refused_down(&[load(1, 0)], ack(3))?;
    refused_down(&[fence(1)], ack(3))
}

#[test]
fn an_end_of_a_store_to_another_line() -> Result<(), Fail> {
    refused_down(&[sc_store(1, 1, 5)], ack(3))?;
    refused_down(&[store(1, 0, 5), sc_store(1, 1, 5)], ack(19))
}

// On a line that is not held, unsettled and settled.
#[test]
fn an_update_of_stamp_zero() -> Result<(), Fail> {
    refused_down(&[], of_stamp(0, Kind::Write))?;
    refused_down(&[store(1, 0, 5)], of_stamp(0, Kind::Write))?;
    refused_down(&settled(), of_stamp(0, Kind::Write))
}

#[test]
fn an_update_above_the_limit() -> Result<(), Fail> {
    refused_down(&[], of_stamp(STAMP_LIMIT + 1, Kind::Write))?;
    refused_down(&settled(), of_stamp(STAMP_LIMIT + 1, Kind::Write))?;
    refused_down(&settled(), of_stamp(u32::MAX, Kind::Write))
}

#[test]
fn a_fence_above_the_limit() -> Result<(), Fail> {
    refused_down(&[], of_stamp(STAMP_LIMIT + 1, Kind::FenceRequest))?;
    refused_down(&[fence(1)], of_stamp(STAMP_LIMIT + 1, Kind::FenceResponse))
}

#[test]
fn a_word_above_the_limit() -> Result<(), Fail> {
    refused_down(&[load(1, 0)], of_stamp(STAMP_LIMIT + 1, Kind::ReadResponse))
}

// The copy would stay, and its stamp would rise above the limit.
#[test]
fn an_update_kept_at_the_limit() -> Result<(), Fail> {
    refused_down(&settled_at_the_limit(), of_stamp(1, Kind::Write))?;
    refused_down(&settled_at_the_limit(), of_stamp(STAMP_LIMIT, Kind::Write))
}

// A line stored to once has stamp 1, so that the sum is one above the limit; and a stamp that is above it by itself.
#[test]
fn an_acknowledgement_above_the_limit() -> Result<(), Fail> {
    refused_down(&[store(1, 0, 5)], ack_of_stamp(STAMP_LIMIT, 16))?;
    refused_down(&[sc_store(1, 0, 5)], ack_of_stamp(STAMP_LIMIT, 19))?;
    refused_down(&[store(1, 0, 5)], ack_of_stamp(u32::MAX, 16))?;
    refused_down(&settled_and_waiting(), ack_of_stamp(STAMP_LIMIT + 1, 3))
}
