use crate::check::check_eq;
use crate::step::{Step, UP, message, up};
use board::Board;
use fabric::{Fabric, Message};
use ring::Ring;
use rules::{Answer, Kind, Outcome, Refusal};
use std::test::*;

// There are more lines than shims, so that the bound of the one does not stand for that of the other.
const SHIMS: u32 = 2;

pub(crate) const LINES: u32 = 3;

// A board and the ring that it stands on.
#[derive(Drop)]
pub(crate) struct Stand {
    board: Board,
    ring: Ring,
}

impl Stand {
    // A stand on which these steps were done, and none of them refused.
    pub(crate) fn after(steps: &[Step]) -> Result<Stand, Refusal> {
        let ring = Ring::new(SHIMS as usize);
        let board = Board::new(&ring, SHIMS, LINES)?;
        let mut stand = Stand { board, ring };
        for step in steps {
            stand.act(*step)?;
        }
        Ok(stand)
    }

    pub(crate) fn act(&mut self, step: Step) -> Outcome {
        match step {
            Step::Make(call) => return self.board.call(&mut self.ring, call),
            Step::Put(lane, msg) => self.ring.put(lane, msg)?,
            Step::Take(lane) => {
                self.ring.take(lane)?;
            }
        }
        Ok(Answer::Done)
    }

    // A hand stores to line 0 at the hub so many times.
    pub(crate) fn stored(&mut self, times: u32) -> Result<(), Refusal> {
        for _ in 0..times {
            self.act(Step::Put(UP, message(Kind::Write)))?;
            self.act(up(1))?;
        }
        Ok(())
    }

    // How many messages the lane holds.
    pub(crate) fn waiting(&self, lane: usize) -> usize {
        self.ring.waiting(lane)
    }

    // Another stand answers to every step as this one does, and has the same on its lanes after it.
    pub(crate) fn agrees(&mut self, other: &mut Stand, steps: &[Step]) -> Result<(), Fail> {
        for step in steps {
            check_eq(self.act(*step), other.act(*step))?;
            self.same_lanes(other, None)?;
        }
        Ok(())
    }

    // This message is alone on the lane, and another stand has the same on every other lane.
    pub(crate) fn has_alone(
        &mut self,
        other: &mut Stand,
        lane: usize,
        msg: Message,
    ) -> Result<(), Fail> {
        check_eq(self.waiting(lane), 1)?;
        check_eq(self.ring.look(lane), Ok(msg))?;
        self.same_lanes(other, Some(lane))
    }

    // Another stand has the same on every lane, or on every lane but one.
    fn same_lanes(&mut self, other: &mut Stand, except: Option<usize>) -> Result<(), Fail> {
        for lane in 0..self.ring.lane_count() {
            if except != Some(lane) {
                same_lane(&mut self.ring, &mut other.ring, lane)?;
            }
        }
        Ok(())
    }
}

// Both rings have as many messages on the lane, and the same first one. The lane stands beside both, so that a failure tells it.
fn same_lane(ring: &mut Ring, other: &mut Ring, lane: usize) -> Result<(), Fail> {
    check_eq((lane, ring.waiting(lane)), (lane, other.waiting(lane)))?;
    check_eq((lane, ring.look(lane)), (lane, other.look(lane)))
}
