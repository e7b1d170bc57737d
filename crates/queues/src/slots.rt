ghost use Rattle.std.specs.Prelude.{◌≡◌, ℕ, ◌<◌, ◌≢◌, List};
ghost use Rattle.fabric.specs.declared.message.Message.{Message};
ghost use Rattle.fabric.specs.Backing.{Backing};
ghost use Rattle.queues.specs.declared.rows.Rows.{Rows};
ghost use Rattle.queues.specs.Rows.{RowsLawful, SpanFits, with_span};
ghost use Rattle.queues.specs.Slots.{Puts, Takes};

use crate::rows::{Rows, Span};
use fabric::Message;

// What holds the messages of lanes in slots: the fabric itself. A generic struct with the slots as a field was tried: of a buffer in a struct within a struct, the
// caller who lent it knows nothing afterwards but its length.
pub trait Slots {
    // What kind of thing lies behind the lanes.
    ghost backing: { Backing };

    // The lanes, and which slots of each are in use.
    ghost rows: { Self → Rows };

    // How many slots there are.
    ghost room: { Self → ℕ };

    // What a slot holds.
    ghost held: { Self → ℕ → Message };

    // The state of what lies behind, by the first slot in use of each lane.
    ghost state: { Self → List ℕ → backing.State };

    // The references that it holds, by their ghost names.
    ghost lender: { Self → List ℕ };

    // The lanes, and which slots of each are in use.
    fn rows(&self) -> &Rows
        ensures { result.now ≡ rows self.now };

    // How many slots a lane has. A function of its own: where this number is a constant, places are found without a division.
    fn lane_len(&self) -> usize
        ensures { result ≡ (rows self.now).capacity };

    // Says which slots of a lane are in use.
    fn set_span(&mut self, lane: usize, span: Span)
        requires { SpanFits (rows self.old) lane span }
        ensures lender { lender self.new ≡ lender self.old }
        ensures rows { rows self.new ≡ with_span (rows self.old) lane span }
        ensures held { held self.new ≡ held self.old }
        ensures state { state self.new ≡ state self.old };

    // The message in a slot.
    fn read(&self, slot: usize) -> Message
        requires { slot < room self.now }
        ensures { result ≡ held self.now slot };

    // Puts a message in a slot, and leaves the others.
    fn write(&mut self, slot: usize, msg: Message)
        requires { slot < room self.old }
        ensures lender { lender self.new ≡ lender self.old }
        ensures rows { rows self.new ≡ rows self.old }
        ensures here { held self.new slot ≡ msg }
        ensures there { (i : ℕ) → i < room self.old → i ≢ slot → held self.new i ≡ held self.old i }
        ensures state { Puts backing (state self.old) (state self.new) slot msg };

    // All lanes lie in the slots.
    ghost lawful: { (s : Self) → RowsLawful (rows s) (room s) };

    // A take writes no slot.
    ghost takes: { (s : Self) → Takes backing (state s) };
}
