ghost use Rattle.std.specs.Prelude.{◌≡◌};
ghost use Rattle.rules.specs.Claim.{claim_answer};
ghost use Rattle.board.specs.Called.{once_claimed, once_handed_back};
ghost use Rattle.board.specs.Made.{whole};

use crate::board::Board;
use rules::{Answer, Outcome, Refusal};

// Claims stand by number here, as all calls of a board do. A chip's program takes a handle, which makes these calls for it (crate `handles`).
impl Board {
    // Claims a shim. No fabric has a part in it.
    pub fn claim(&mut self, shim: u32) -> Outcome
        ensures answer { result ≡ claim_answer self.old.size self.old.state shim }
        ensures board { whole self.new ≡ once_claimed self.old shim }
    {
        let s = self.numbered(shim)?;
        if self.state.shims[s].claimed {
            return Err(Refusal::Claimed);
        }
        self.state.shims[s].claimed = true;
        Ok(Answer::Done)
    }

    // Ends the claim of a shim. A shim that waits goes on waiting, and a board without that shim or that claim stays as it was.
    pub fn hand_back(&mut self, shim: u32)
        ensures { whole self.new ≡ once_handed_back self.old shim }
    {
        if let Ok(s) = self.numbered(shim) {
            self.state.shims[s].claimed = false;
        }
    }
}
