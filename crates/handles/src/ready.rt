ghost use Rattle.std.specs.Prelude.{◌≡◌, true};
ghost use Rattle.rules.specs.Claim.{claim_checks};
ghost use Rattle.rules.specs.Refusals.{passing};
ghost use Rattle.rules.specs.declared.call.Call.TheVariants.{Load, Store, Fence, Evict};
ghost use Rattle.board.specs.Called.{left, called, once_claimed, once_handed_back};
ghost use Rattle.board.specs.Made.{whole};
ghost use Rattle.handles.specs.Agreement.{is_ready_handle, CallAgrees};
ghost use Rattle.handles.specs.Handles.{ready_for, after_call};

use crate::handle::Handle;
use crate::waiting::Waiting;
use board::Board;
use fabric::{Fabric, Word};
use rules::{Answer, Outcome, Refusal};

// A handle for a shim that is ready for its chip's next call.
pub struct Ready {
    pub(crate) shim: u32,
    pub(crate) spent: bool,
}

// A handle ends only where it is spent, and only handing it back spends it.
impl Drop for Ready {
    fn drop(self)
        requires { self.spent ≡ true }
    {
        let Ready { shim: _, spent: _ } = self;
    }
}

impl Ready {
    // Claims a shim.
    pub fn claim(board: &mut Board, shim: u32) -> Result<Ready, Refusal>
        ensures handle { result ≡ passing (claim_checks board.old.size board.old.state shim) (ready_for shim) }
        ensures board { whole board.new ≡ once_claimed board.old shim }
    {
        board.claim(shim)?;
        Ok(Ready { shim, spent: false })
    }

    // The board's load, at the handle's shim.
    pub fn load<F: Fabric>(
        self,
        board: &mut Board,
        fabric: &mut F,
        line: u32,
        strength: u8,
    ) -> (Handle, Outcome)
        ensures lender { F.Fabric.lender fabric.new ≡ F.Fabric.lender fabric.old }
        ensures rule { left result.1 board.new (F.Fabric.model fabric.new) ≡ called board.old (F.Fabric.model fabric.old) (Load self.shim line strength) }
        ensures handle { result.0 ≡ after_call self result.1 }
        ensures agrees { CallAgrees board.old self.shim (is_ready_handle result.0) board.new result.1 }
    {
        let outcome = board.load(fabric, self.shim, line, strength);
        (self.after(outcome), outcome)
    }

    // The board's store.
    pub fn store<F: Fabric>(
        self,
        board: &mut Board,
        fabric: &mut F,
        line: u32,
        strength: u8,
        value: Word,
    ) -> (Handle, Outcome)
        ensures lender { F.Fabric.lender fabric.new ≡ F.Fabric.lender fabric.old }
        ensures rule { left result.1 board.new (F.Fabric.model fabric.new) ≡ called board.old (F.Fabric.model fabric.old) (Store self.shim line strength value) }
        ensures handle { result.0 ≡ after_call self result.1 }
        ensures agrees { CallAgrees board.old self.shim (is_ready_handle result.0) board.new result.1 }
    {
        let outcome = board.store(fabric, self.shim, line, strength, value);
        (self.after(outcome), outcome)
    }

    // The board's fence.
    pub fn fence<F: Fabric>(
        self,
        board: &mut Board,
        fabric: &mut F,
        strength: u8,
    ) -> (Handle, Outcome)
        ensures lender { F.Fabric.lender fabric.new ≡ F.Fabric.lender fabric.old }
        ensures rule { left result.1 board.new (F.Fabric.model fabric.new) ≡ called board.old (F.Fabric.model fabric.old) (Fence self.shim strength) }
        ensures handle { result.0 ≡ after_call self result.1 }
        ensures agrees { CallAgrees board.old self.shim (is_ready_handle result.0) board.new result.1 }
    {
        let outcome = board.fence(fabric, self.shim, strength);
        (self.after(outcome), outcome)
    }

    // The board's eviction. It never waits, so the handle stays a ready one.
    pub fn evict<F: Fabric>(self, board: &mut Board, fabric: &mut F, line: u32) -> (Ready, Outcome)
        ensures lender { F.Fabric.lender fabric.new ≡ F.Fabric.lender fabric.old }
        ensures rule { left result.1 board.new (F.Fabric.model fabric.new) ≡ called board.old (F.Fabric.model fabric.old) (Evict self.shim line) }
        ensures handle { result.0 ≡ self }
        ensures agrees { CallAgrees board.old self.shim true board.new result.1 }
    {
        let outcome = board.evict(fabric, self.shim, line);
        (self, outcome)
    }

    // Ends the claim.
    pub fn hand_back(mut self, board: &mut Board)
        ensures { whole board.new ≡ once_handed_back board.old self.shim }
    {
        board.hand_back(self.shim);
        self.spent = true;
    }

    // The handle after a call: a call that waits turns it into a waiting one.
    fn after(self, outcome: Outcome) -> Handle
        ensures { result ≡ after_call self outcome }
    {
        match outcome {
            Ok(Answer::Waits) => {
                let Ready { shim, spent } = self;
                Handle::Waiting(Waiting { shim, spent })
            }
            _ => Handle::Ready(self),
        }
    }
}
