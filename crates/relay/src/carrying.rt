ghost use Rattle.std.specs.Prelude.{◌≡◌, false, length, is_ok, Ok};
ghost use Rattle.fabric.specs.Lanes.{put_answer};
ghost use Rattle.frames.specs.Frames.{lanes_over};
ghost use Rattle.relay.specs.Carrying.{carry_answer, move_in_answer, move_in_bytes};

use crate::moving::move_first;
use fabric::{Fabric, FabricFault, Message};
use frames::Frames;
use stage::Stage;

// Puts a message on lane `from` of a fabric in the caller's bytes, stands two stages over it,
// moves the message to lane `to` and takes it there.
pub fn carry(
    bytes: &mut [u8],
    shims: usize,
    from: usize,
    to: usize,
    msg: Message,
) -> Result<Message, FabricFault>
    ensures answer { result ≡ carry_answer (length bytes.old) shims from to msg }
    ensures unwritten { is_ok (put_answer (lanes_over (length bytes.old) shims) from) ≡ false → bytes.new ≡ bytes.old }
{
    let mut frames = Frames::new(bytes, shims);
    frames.put(from, msg)?;
    let mut pile = Stage::new(Stage::new(frames));
    move_first(&mut pile, from, to)?;
    pile.take(to)
}

// Puts a message on lane `from` of a fabric in the caller's bytes and moves it to lane `to`: every byte is known afterwards.
pub fn move_in_bytes(
    bytes: &mut [u8],
    shims: usize,
    from: usize,
    to: usize,
    msg: Message,
) -> Result<(), FabricFault>
    ensures answer { result ≡ move_in_answer (length bytes.old) shims from to msg }
    ensures bytes { bytes.new ≡ move_in_bytes bytes.old shims from to msg }
{
    let mut frames = Frames::new(bytes, shims);
    frames.put(from, msg)?;
    move_first(&mut frames, from, to)
}

// Carries a message from shim 0 to shim 1, over 4,096 bytes: it comes out as it went in.
pub fn carry_across(bytes: &mut [u8; 4096], msg: Message) -> Result<Message, FabricFault>
    ensures answer { result ≡ Ok msg }
{
    carry(bytes, 2, 0, 3, msg)
}
