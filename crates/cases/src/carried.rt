ghost use Rattle.std.specs.Prelude.{◌≡◌, [], ◌∷◌};

use fabric::{FRAME_LEN, encode};
use relay::carry_across;
use rules::{Strength, store_request};

// The frame of an SC store of 0x01020304 to a held line, carried from shim 0 to shim 1: it is never refused.
pub(crate) fn carried_frame() -> [u8; FRAME_LEN]
    ensures { result ≡ 0x01 ∷ 0x00 ∷ 0x03 ∷ 0x00 ∷ 0x01 ∷ 0x02 ∷ 0x03 ∷ 0x04 ∷ 0x00 ∷ 0x00 ∷ 0x00 ∷ 0x00 ∷ [] }
{
    let mut bytes = [0u8; 4096];
    let msg = store_request(0, 0, Strength::SeqCst, true, 0x01020304);
    encode(carry_across(&mut bytes, msg).unwrap())
}
