ghost use Rattle.std.specs.Prelude.{◌≡◌};
ghost use Rattle.fabric.specs.Fault.{fault_number, fault_lane};

// Why a fabric refuses a call, with the lane that was named.
#[derive(Clone, Copy, PartialEq, Eq, Debug)]
pub enum FabricFault {
    // The fabric has no such lane.
    NoLane(usize),
    // The lane holds as many messages as its capacity.
    Full(usize),
    // The lane holds no message.
    Empty(usize),
}

// The number of the refusal.
impl From<FabricFault> for u8 {
    ghost from_gives = { λ fault number. number ≡ fault_number fault };

    fn from(fault: FabricFault) -> u8 {
        match fault {
            FabricFault::NoLane(_) => 21,
            FabricFault::Full(_) => 22,
            FabricFault::Empty(_) => 23,
        }
    }
}

impl FabricFault {
    // The lane that was named.
    pub fn lane(self) -> usize
        ensures { result ≡ fault_lane self }
    {
        match self {
            FabricFault::NoLane(lane) | FabricFault::Full(lane) | FabricFault::Empty(lane) => lane,
        }
    }
}
