// Prints cases: the frame of a store, a message carried through two stages over frames, and what a board says at its limits.
#![tactic(auto)]

ghost use Rattle.std.specs.Prelude.{◌≡◌, [], ◌∷◌};
ghost use Rattle.cases.specs.Cases.{Cases};

use crate::bytes::Bytes;
use crate::carried::carried_frame;
use fabric::{FRAME_LEN, encode};
use rules::{Outcome, Strength, store_request};
use std::io;

mod bytes;
mod carried;
mod limits;

// The frame of a store of 7 with release strength, on a line that its shim, number 0, does not hold: the first of the cases
// that follow from the rules.
fn store_frame() -> [u8; FRAME_LEN]
    ensures frame { result ≡ 0x01 ∷ 0x00 ∷ 0x12 ∷ 0x00 ∷ 0x00 ∷ 0x00 ∷ 0x00 ∷ 0x07 ∷ 0x00 ∷ 0x00 ∷ 0x00 ∷ 0x00 ∷ [] }
    ensures cases { Cases }
{
    encode(store_request(0, 0, Strength::Release, false, 7))
}

fn tell(rt: &HostRuntime, name: &str, outcome: Outcome) -> io::Result<()> {
    match outcome {
        Ok(_) => println!(rt; "{name}: good"),
        Err(refusal) => println!(rt; "{name}: no {refusal}"),
    }
}

fn main(rt: HostRuntime) -> io::Result<()> {
    println!(rt; "store:{}", Bytes(&store_frame()))?;
    println!(rt; "carried:{}", Bytes(&carried_frame()))?;
    tell(&rt, "line 63 of 64", limits::store_to(63))?;
    tell(&rt, "line 64 of 64", limits::store_to(64))?;
    let [last, next, by_hand] = limits::million_stores().unwrap_or_else(|refusal| [Err(
        refusal,
    ); 3]);
    tell(&rt, "store 1000000", last)?;
    tell(&rt, "store 1000001", next)?;
    tell(
        &rt,
        "a store put on the lane by hand, with the hub's stamp at the limit",
        by_hand,
    )
}

#[cfg(test)]
mod tests {
    use super::*;
    use fabric::Fabric;
    use frames::Frames;
    use std::test::Fail;

    // Two frames for one shim: lane 1 is the second, and its only slot is used again after a take.
    #[test]
    fn one_slot_a_lane(rt: HostRuntime) -> Result<(), Fail> {
        let mut bytes = [0; 2 * FRAME_LEN];
        let mut frames = Frames::new(&mut bytes, 1);
        frames.put(1, store_request(0, 0, Strength::Relaxed, true, 5))?;
        assert!(rt;
            frames
                .put(1, store_request(0, 0, Strength::Relaxed, true, 6))
                .is_err()
        );
        frames.take(1)?;
        frames.put(1, store_request(0, 3, Strength::Relaxed, true, 6))?;
        assert_eq!(rt; bytes[0], 0);
        assert_eq!(rt; bytes[FRAME_LEN + 1], 3);
        assert_eq!(rt; bytes[FRAME_LEN + 7], 6);
        Ok(())
    }
}
