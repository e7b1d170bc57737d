ghost use Rattle.std.specs.Prelude.{◌≡◌, nat_le, if◌then◌else◌, None};
ghost use Rattle.rules.specs.State.{stamp_limit, stamp_of};
ghost use Rattle.rules.specs.Store.{line_stored};
ghost use Rattle.rules.specs.declared.call.Call.TheVariants.{Store};
ghost use Rattle.board.specs.Called.{left, called};

use crate::board::Board;
use crate::lanes::up_lane;
use fabric::{Fabric, Word};
use rules::{Access, Answer, Held, Outcome, Refusal, STAMP_LIMIT, Strength, Wait, store_request};

// What a shim holds of a line after a store to it; none where the line's stamp is at the limit.
fn held_stored(here: Option<Held>, copy: Word) -> Option<Held>
    ensures { result ≡ (if nat_le stamp_limit (stamp_of here) then None else line_stored here copy) }
{
    match here {
        None => Some(Held {
            settled: false,
            copy,
            stamp: 1,
        }),
        Some(held) if held.stamp < STAMP_LIMIT => Some(Held {
            copy,
            stamp: held.stamp + 1,
            ..held
        }),
        Some(_) => None,
    }
}

impl Board {
    // A store by a shim to a line: the shim's copy changes, and the store goes up. An SC store waits for its acknowledgement.
    pub fn store<F: Fabric>(
        &mut self,
        fabric: &mut F,
        shim: u32,
        line: u32,
        strength: u8,
        value: Word,
    ) -> Outcome
        ensures lender { F.Fabric.lender fabric.new ≡ F.Fabric.lender fabric.old }
        ensures rule { left result self.new (F.Fabric.model fabric.new) ≡ called self.old (F.Fabric.model fabric.old) (Store shim line strength value) }
    {
        let (s, x) = self.place(fabric, shim, line)?;
        let strength = Strength::fitting(Access::Store, strength).ok_or(Refusal::WrongStrength)?;
        self.ready(s)?;
        if self.state.stores >= STAMP_LIMIT {
            return Err(Refusal::AtLimit);
        }
        let here = self.state.shims[s].lines[x];
        let held = held_stored(here, value).ok_or(Refusal::AtLimit)?;
        fabric.put(
            up_lane(s),
            store_request(s as u8, x as u8, strength, here.is_some(), value),
        )?;
        self.state.stores += 1;
        self.state.shims[s].lines[x] = Some(held);
        if strength == Strength::SeqCst {
            self.state.shims[s].wait = Some(Wait::Store(x as u8));
            return Ok(Answer::Waits);
        }
        Ok(Answer::Done)
    }
}
