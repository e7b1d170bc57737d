ghost use Rattle.std.specs.Prelude.{◌≡◌};
ghost use Rattle.board.specs.Made.{made_of};
ghost use Rattle.run.specs.Bytes.{run_in};
ghost use Rattle.run.specs.Whole.{Ordered};

use crate::run::run_events;
use board::Board;
use frames::Frames;
use rules::{Event, Refusal};

// Makes a fabric in the caller's bytes and a board over it, and does what a list asks: every byte is known afterwards.
pub fn run_in_bytes(
    shims: u32,
    lines: u32,
    bytes: &mut [u8],
    events: &mut [Event],
) -> Result<Board, Refusal>
    ensures made { made_of result ≡ (run_in bytes.old shims lines events.old).made }
    ensures events { events.new ≡ (run_in bytes.old shims lines events.old).events }
    ensures bytes { bytes.new ≡ (run_in bytes.old shims lines events.old).fabric.state.bytes }
    ensures order { Ordered result events.new (run_in bytes.old shims lines events.old).fabric.lanes }
{
    let mut fabric = Frames::new(bytes, shims as usize);
    run_events(shims, lines, &mut fabric, events)
}
