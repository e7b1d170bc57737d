ghost use Rattle.std.specs.Prelude.{◌≡◌, ◌<◌, Some, length, IfOk};
ghost use Rattle.fabric.specs.Lanes.{take_answer};
ghost use Rattle.stage.specs.Stage.{register, stage_backing, stage_model, made_stage, StageLawful};
ghost use Rattle.stage.specs.Sound.{stage_sound, stage_level};

use fabric::{Fabric, FabricFault, MAX_LANES, Message};

// A register per lane over another fabric: a lane is its register, then the list below.
#[derive(Drop)]
pub struct Stage<F: Fabric> {
    registers: [Option<Message>; MAX_LANES],
    below: F,
    ghost lawful: { StageLawful registers (F.Fabric.model below).lanes },
}

#[tactic(auto, using(crate::proofs::Models::stage_calls))]
impl<F: Fabric> Stage<F> {
    // A stage over `below`: every lane's list is as it was, and its first message stands in the register.
    #[tactic(auto, unfolding(crate::specs::Stage::firsts_taken))]
    pub fn new(mut below: F) -> Stage<F>
        ensures lender { ⟦<Stage<F> as Fabric>⟧.lender result ≡ F.Fabric.lender below }
        ensures model { ⟦<Stage<F> as Fabric>⟧.model result ≡ made_stage F.Fabric.backing (F.Fabric.model below) }
        ensures bytes { F.Fabric.backing.bytes_of (⟦<Stage<F> as Fabric>⟧.model result).state ≡ F.Fabric.backing.bytes_of (F.Fabric.model below).state }
    {
        let mut registers = [None; MAX_LANES];
        // A lane that is not there gives no message.
        // `array::from_fn` was tried: nothing is known of `below` after it.
        for (lane, register) in registers.iter_mut().enumerate() {
            *register = below.take(lane).ok();
        }
        Stage { registers, below }
    }

    // The message in the register of a lane; refuses as look does.
    fn first(&self, lane: usize) -> Result<Message, FabricFault>
        ensures answer { result ≡ take_answer (⟦<Stage<F> as Fabric>⟧.model self.now).lanes lane }
        ensures there { IfOk result (λ msg. (lane < length (F.Fabric.model self.now.below).lanes) × (register self.now.registers lane ≡ Some msg)) }
    {
        if lane >= self.below.lane_count() {
            return Err(FabricFault::NoLane(lane));
        }
        self.registers[lane].ok_or(FabricFault::Empty(lane))
    }
}

#[tactic(auto, using(crate::proofs::Models::stage_calls))]
impl<F: Fabric> Fabric for Stage<F> {
    ghost backing = { stage_backing F.Fabric.backing };

    ghost model = { λ s. stage_model F.Fabric.backing s.registers (F.Fabric.model s.below) };

    ghost lender = { λ s. F.Fabric.lender s.below };

    ghost sound = { λ s. stage_sound s.registers (F.Fabric.model s.below).lanes s.lawful (F.Fabric.sound s.below) };

    ghost level = { λ s. stage_level s.registers (F.Fabric.model s.below).lanes (F.Fabric.level s.below) };

    fn put(&mut self, lane: usize, msg: Message) -> Result<(), FabricFault> {
        if lane >= self.below.lane_count() {
            return Err(FabricFault::NoLane(lane));
        }
        match self.registers[lane] {
            None => {
                self.registers[lane] = Some(msg);
                Ok(())
            }
            // The register counts against the capacity.
            Some(_) if self.below.waiting(lane) + 1 >= self.below.capacity(lane) => {
                Err(FabricFault::Full(lane))
            }
            Some(_) => self.below.put(lane, msg),
        }
    }

    fn take(&mut self, lane: usize) -> Result<Message, FabricFault> {
        let msg = self.first(lane)?;
        self.registers[lane] = self.below.take(lane).ok();
        Ok(msg)
    }

    fn look(&mut self, lane: usize) -> Result<Message, FabricFault> {
        self.first(lane)
    }

    fn lane_count(&self) -> usize {
        self.below.lane_count()
    }

    fn capacity(&self, lane: usize) -> usize {
        self.below.capacity(lane)
    }

    fn waiting(&self, lane: usize) -> usize {
        let waiting = self.below.waiting(lane);
        if lane < self.below.lane_count() && self.registers[lane].is_some() {
            waiting + 1
        } else {
            waiting
        }
    }
}
