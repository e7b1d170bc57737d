ghost use Rattle.std.specs.Prelude.{◌≡◌};
ghost use Rattle.relay.specs.Moving.{move_answer, after_move};

use fabric::{Fabric, FabricFault};

// Moves the first message of one lane to the end of another, over any fabric.
pub fn move_first<F: Fabric>(fabric: &mut F, from: usize, to: usize) -> Result<(), FabricFault>
    ensures lender { F.Fabric.lender fabric.new ≡ F.Fabric.lender fabric.old }
    ensures answer { result ≡ move_answer (F.Fabric.model fabric.old).lanes from to }
    ensures after { F.Fabric.model fabric.new ≡ after_move F.Fabric.backing result (F.Fabric.model fabric.old) from to }
{
    let msg = fabric.look(from)?;
    fabric.put(to, msg)?;
    // Never refused: the message looked at is still the first of its lane.
    let _ = fabric.take(from);
    Ok(())
}
