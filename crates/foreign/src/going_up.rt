// What is foreign on an up lane.
use crate::refused::{refused, refused_up};
use crate::stand::Stand;
use crate::step::*;
use fabric::Message;
use rules::{Kind, STAMP_LIMIT};
use std::test::*;

#[test]
fn kinds_that_only_come_down() -> Result<(), Fail> {
    refused_up(&[], message(Kind::ReadResponse))?;
    refused_up(&[], message(Kind::FenceResponse))?;
    refused_up(&[], message(Kind::WriteAck))
}

// Not even while the shim waits for it.
#[test]
fn answers_that_are_waited_for_below() -> Result<(), Fail> {
    let taken = Step::Take(UP);
    refused_up(&[load(1, 0), taken], message(Kind::ReadResponse))?;
    refused_up(&[fence(1), taken], message(Kind::FenceResponse))
}

#[test]
fn kinds_that_are_none() -> Result<(), Fail> {
    let msg = message(Kind::Write);
    refused_up(&[], Message { kind: 0, ..msg })?;
    refused_up(&[], Message { kind: 8, ..msg })?;
    refused_up(&[], Message { kind: 255, ..msg })
}

#[test]
fn a_line_not_on_the_board() -> Result<(), Fail> {
    refused_up(&[], on_line(3, Kind::Write))?;
    refused_up(&[], on_line(3, Kind::ReadRequest))?;
    refused_up(&[], on_line(3, Kind::FenceRequest))?;
    refused_up(&[], on_line(255, Kind::Drop))
}

#[test]
fn another_sender() -> Result<(), Fail> {
    refused_up(&[], from_shim(0, Kind::Write))?;
    refused_up(&[], from_shim(0, Kind::ReadRequest))?;
    refused_up(&[], from_shim(0, Kind::FenceRequest))?;
    refused_up(&[], from_shim(2, Kind::Drop))
}

// The hub takes a store from a hand as from the board, up to its last stamp.
#[test]
fn a_store_at_the_last_stamp() -> Result<(), Fail> {
    let mut stand = Stand::after(&[])?;
    let mut twin = Stand::after(&[])?;
    stand.stored(STAMP_LIMIT)?;
    twin.stored(STAMP_LIMIT)?;
    refused(&mut stand, &mut twin, up(1), UP, message(Kind::Write))
}
