ghost use Rattle.std.specs.Prelude.{◌≡◌, Some};
ghost use Rattle.rules.specs.declared.refusal.Refusal.TheVariants.{Fabric};
ghost use Rattle.rules.specs.Refusals.{refusal_number};
ghost use Rattle.rules.specs.Words.{refusal_bytes};

use fabric::FabricFault;
use std::error::Error;
use std::fmt;

// Why a board turns a call away. A refused call changes nothing.
#[derive(Clone, Copy, PartialEq, Eq, Debug)]
pub enum Refusal {
    // The shims, the lines or the number of lanes are not those of a board.
    WrongSize,
    // A message waits on the fabric of a board to be made.
    MessageWaits,
    NoShim,
    NoLine,
    // The call does not take this strength.
    WrongStrength,
    // The shim waits for an answer.
    ShimWaits,
    NotHeld,
    Unsettled,
    // The number of stores, or the line's stamp at the shim, is at the limit.
    AtLimit,
    // The fabric's own refusal: the lane to be sent on is full, or nothing waits on the lane.
    Fabric(FabricFault),
    // The first message of this lane is foreign: docs/PROTOCOL.md lists what is.
    Foreign(usize),
    // A chip has claimed the shim.
    Claimed,
    // The shim waits for nothing, so no turn can end a wait.
    NotWaiting,
}

impl From<FabricFault> for Refusal {
    ghost from_gives = { λ e f. f ≡ Fabric e };

    fn from(fault: FabricFault) -> Refusal {
        Refusal::Fabric(fault)
    }
}

// The number of a refusal.
impl From<Refusal> for u8 {
    ghost from_gives = { λ e n. n ≡ refusal_number e };

    fn from(refusal: Refusal) -> u8 {
        match refusal {
            Refusal::WrongSize => 1,
            Refusal::MessageWaits => 2,
            Refusal::NoShim => 3,
            Refusal::NoLine => 4,
            Refusal::WrongStrength => 5,
            Refusal::ShimWaits => 6,
            Refusal::NotHeld => 7,
            Refusal::Unsettled => 8,
            Refusal::AtLimit => 9,
            // A lane that is not there makes the lane count wrong: no call comes so far.
            Refusal::Fabric(FabricFault::NoLane(_)) => 1,
            Refusal::Fabric(FabricFault::Full(_)) => 10,
            Refusal::Fabric(FabricFault::Empty(_)) => 11,
            Refusal::Foreign(_) => 12,
            Refusal::Claimed => 13,
            Refusal::NotWaiting => 14,
        }
    }
}

// The number of a refusal, and then what it carries.
impl fmt::Display for Refusal {
    ghost output = { λ e. Some (refusal_bytes e) };

    fn fmt<W: fmt::Write>(&self, f: &mut fmt::Formatter<W>) -> fmt::Result {
        let number = u8::from(*self);
        match *self {
            Refusal::Fabric(fault @ (FabricFault::Full(_) | FabricFault::Empty(_))) => {
                write!(f, "{number} {} {}", u8::from(fault), fault.lane())
            }
            Refusal::Foreign(lane) => write!(f, "{number} {lane}"),
            _ => write!(f, "{number}"),
        }
    }
}

impl Error for Refusal {}
