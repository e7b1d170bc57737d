ghost use Rattle.std.specs.Prelude.{◌≡◌, ◌+◌, ◌*◌, ◌<◌, [], ◌∷◌};
ghost use Rattle.rules.specs.Refusals.{passing};
ghost use Rattle.rules.specs.Checks.{wrong_lanes, no_shim, no_line, shim_waits, message_checks, first_on};

use crate::board::Board;
use crate::lanes::lane_count;
use fabric::{Fabric, Message};
use rules::Refusal;

// The tests that calls share.
impl Board {
    // The shim of that number.
    pub(crate) fn numbered(&self, shim: u32) -> Result<usize, Refusal>
        ensures { result ≡ passing (no_shim self.now.size shim ∷ []) shim }
    {
        if shim as usize >= self.size.shims {
            return Err(Refusal::NoShim);
        }
        Ok(shim as usize)
    }

    // The shim of that number, where the fabric's lanes are the board's.
    pub(crate) fn shim<F: Fabric>(&self, fabric: &F, shim: u32) -> Result<usize, Refusal>
        ensures { result ≡ passing (wrong_lanes self.now.size (F.Fabric.model fabric.now).lanes ∷ no_shim self.now.size shim ∷ []) shim }
    {
        if fabric.lane_count() != lane_count(self.size.shims) {
            return Err(Refusal::WrongSize);
        }
        self.numbered(shim)
    }

    // The shim and the line of those numbers, where the fabric's lanes are the board's. Either fits a byte, so a call writes it into a message by `as u8`:
    // `u8::try_from` would bring a refusal that never comes.
    pub(crate) fn place<F: Fabric>(
        &self,
        fabric: &F,
        shim: u32,
        line: u32,
    ) -> Result<(usize, usize), Refusal>
        ensures { result ≡ passing (wrong_lanes self.now.size (F.Fabric.model fabric.now).lanes ∷ no_shim self.now.size shim ∷ no_line self.now.size line ∷ []) (shim, line) }
    {
        self.shim(fabric, shim)?;
        if line as usize >= self.size.lines {
            return Err(Refusal::NoLine);
        }
        Ok((shim as usize, line as usize))
    }

    // The first message of a lane of a shim.
    pub(crate) fn first<F: Fabric>(
        &self,
        fabric: &mut F,
        shim: u32,
        lane: usize,
    ) -> Result<Message, Refusal>
        requires { lane < 2 * shim + 2 }
        ensures lender { F.Fabric.lender fabric.new ≡ F.Fabric.lender fabric.old }
        ensures same { F.Fabric.model fabric.new ≡ F.Fabric.model fabric.old }
        ensures message { result ≡ passing (message_checks self.now.size (F.Fabric.model fabric.old).lanes shim lane) (first_on (F.Fabric.model fabric.old).lanes lane) }
    {
        self.shim(fabric, shim)?;
        Ok(fabric.look(lane)?)
    }

    // Refuses where the shim waits for an answer.
    pub(crate) fn ready(&self, shim: usize) -> Result<(), Refusal>
        requires { shim < self.now.size.shims }
        ensures { result ≡ passing (shim_waits self.now.state shim ∷ []) tt }
    {
        match self.state.shims[shim].wait {
            None => Ok(()),
            Some(_) => Err(Refusal::ShimWaits),
        }
    }
}
