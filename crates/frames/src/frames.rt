ghost use Rattle.std.specs.Prelude.{◌≡◌, ◌+◌, ◌/◌, ◌≤◌, [], ◌∷◌, length, refl};
ghost use Rattle.fabric.specs.Frame.{frame_of, message_of, frame_bytes};
ghost use Rattle.queues.specs.Rows.{RowsLawful};
ghost use Rattle.queues.specs.Sound.{rows_sound, rows_level};
ghost use Rattle.frames.specs.Buffer.{buffer_backing, frames_room, message_in, overwritten};

use crate::check::made_rows;
use fabric::{FRAME_LEN, Fabric, FabricFault, Message, decode, encode};
use queues::{Rows, Slots, Span};

// A fabric in a byte buffer that the caller hands in: slot i is the frame that begins at byte FRAME_LEN * i.
#[derive(Drop)]
pub struct Frames<'a> {
    rows: Rows,
    bytes: &'a mut [u8],
    ghost lawful: { RowsLawful rows (frames_room bytes.now) },
}

impl<'a> Frames<'a> {
    ghost use Rattle.frames.specs.Frames.{frames_model, made_over};

    // A fabric in `bytes`, with no lanes where `check_buffer` refuses. No byte is written.
    pub fn new(bytes: &'a mut [u8], shims: usize) -> Frames<'a>
        ensures lender { result.bytes.ghost_name ≡ bytes.entry.ghost_name }
        ensures model { frames_model result ≡ made_over bytes.old shims }
    {
        let rows = made_rows(bytes.len(), shims);
        Frames { rows, bytes }
    }
}

impl<'a> Slots for Frames<'a> {
    ghost backing = { buffer_backing };

    ghost rows = { λ f. f.rows };

    ghost room = { λ f. frames_room f.bytes.now };

    ghost held = { λ f. message_in f.bytes.now };

    ghost state = { λ f first. record { bytes = f.bytes.now; first = first } };

    ghost lender = { λ f. f.bytes.ghost_name ∷ [] };

    ghost lawful = { λ f. f.lawful };

    ghost takes = { λ _ _ _ _. refl };

    fn rows(&self) -> &Rows {
        &self.rows
    }

    fn lane_len(&self) -> usize {
        self.rows.capacity
    }

    fn set_span(&mut self, lane: usize, span: Span) {
        self.rows.spans[lane] = span;
    }

    fn read(&self, slot: usize) -> Message {
        let at = FRAME_LEN * slot;
        decode(&self.bytes[at..at + FRAME_LEN].try_into().unwrap())
    }

    fn write(&mut self, slot: usize, msg: Message) {
        write_frame(self.bytes, FRAME_LEN * slot, msg);
    }
}

// Writes the frame of a message from byte `at` on.
fn write_frame(bytes: &mut [u8], at: usize, msg: Message)
    requires { at + frame_bytes ≤ length bytes.old }
    ensures wrote { bytes.new ≡ overwritten bytes.old at (frame_of msg) }
    ensures back { message_of (frame_of msg) ≡ msg }
{
    bytes[at..at + FRAME_LEN].copy_from_slice(&encode(msg));
}

impl<'a> Fabric for Frames<'a> {
    ghost use Rattle.frames.specs.Frames.{frames_model};

    ghost backing = { buffer_backing };

    ghost model = { frames_model };

    ghost lender = { λ f. f.bytes.ghost_name ∷ [] };

    ghost sound = { λ f. rows_sound f.rows (frames_room f.bytes.now) (message_in f.bytes.now) f.lawful };

    ghost level = { λ f. rows_level f.rows (frames_room f.bytes.now) (message_in f.bytes.now) f.lawful };

    fn put(&mut self, lane: usize, msg: Message) -> Result<(), FabricFault> {
        queues::put(self, lane, msg)
    }

    fn take(&mut self, lane: usize) -> Result<Message, FabricFault> {
        queues::take(self, lane)
    }

    fn look(&mut self, lane: usize) -> Result<Message, FabricFault> {
        queues::look(self, lane)
    }

    fn lane_count(&self) -> usize {
        queues::lane_count(self)
    }

    fn capacity(&self, lane: usize) -> usize {
        queues::capacity(self, lane)
    }

    fn waiting(&self, lane: usize) -> usize {
        queues::waiting(self, lane)
    }
}
