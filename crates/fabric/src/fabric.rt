ghost use Rattle.std.specs.Prelude.{◌≡◌, ℕ, List, length};
ghost use Rattle.fabric.specs.Lanes.{Sound, Level, put_answer, take_answer, messages_of, capacity_of};
ghost use Rattle.fabric.specs.Backing.{Backing, Model, after_put, after_take};

use crate::fault::FabricFault;
use crate::message::Message;

// How many shims a fabric serves at most.
pub const MAX_SHIMS: usize = 8;
// Shim s sends on lane 2 * s, and receives on the lane after it.
pub const LANES_PER_SHIM: usize = 2;
// How many lanes a fabric has at most.
pub const MAX_LANES: usize = LANES_PER_SHIM * MAX_SHIMS;
// How many messages a lane can hold at most.
pub const MAX_CAPACITY: usize = 64;

// A set of lanes that carry messages in order.
pub trait Fabric {
    // What kind of thing lies behind the lanes.
    ghost backing: { Backing };

    // The meaning: the lanes, and the state of what lies behind them.
    ghost model: { Self → Model backing };

    // The references that it holds, by their ghost names: whoever lent a buffer knows it again after a call.
    ghost lender: { Self → List ℕ };

    // The message joins the lane at its end.
    fn put(&mut self, lane: usize, msg: Message) -> Result<(), FabricFault>
        ensures lender { lender self.new ≡ lender self.old }
        ensures answer { result ≡ put_answer (model self.old).lanes lane }
        ensures after { model self.new ≡ after_put backing result (model self.old) lane msg };

    // Removes the first message of the lane.
    fn take(&mut self, lane: usize) -> Result<Message, FabricFault>
        ensures lender { lender self.new ≡ lender self.old }
        ensures answer { result ≡ take_answer (model self.old).lanes lane }
        ensures after { model self.new ≡ after_take backing result (model self.old) lane };

    // The first message of the lane. A fabric may fetch while it looks, so it is lent to change.
    fn look(&mut self, lane: usize) -> Result<Message, FabricFault>
        ensures lender { lender self.new ≡ lender self.old }
        ensures answer { result ≡ take_answer (model self.old).lanes lane }
        ensures same { model self.new ≡ model self.old };

    // How many lanes there are.
    fn lane_count(&self) -> usize
        ensures { result ≡ length (model self.now).lanes };

    // How many messages the lane can hold; 0 where there is no such lane.
    fn capacity(&self, lane: usize) -> usize
        ensures { result ≡ capacity_of (model self.now).lanes lane };

    // How many messages the lane holds; 0 where there is no such lane.
    fn waiting(&self, lane: usize) -> usize
        ensures { result ≡ length (messages_of (model self.now).lanes lane) };

    // Every fabric keeps the bounds on lanes, capacities and messages.
    ghost sound: { (s : Self) → Sound (model s).lanes };

    // Its lanes have one capacity.
    ghost level: { (s : Self) → Level (model s).lanes };
}
