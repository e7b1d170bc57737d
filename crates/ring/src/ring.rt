ghost use Rattle.std.specs.Prelude.{◌≡◌, [], length, refl};
ghost use Rattle.fabric.specs.Backing.{no_backing};
ghost use Rattle.queues.specs.Rows.{RowsLawful};
ghost use Rattle.queues.specs.Sound.{rows_sound, rows_level};
ghost use Rattle.ring.specs.Table.{ring_capacity, lanes_for, message_in};

use fabric::{Fabric, FabricFault, LANES_PER_SHIM, MAX_LANES, MAX_SHIMS, Message};
use queues::{Rows, Slots, Span};

// How many messages each lane of a ring can hold.
pub const RING_CAPACITY: usize = 16;

const SLOTS: usize = RING_CAPACITY * MAX_LANES;

const BLANK: Message = Message {
    kind: 0,
    line: 0,
    mark: 0,
    sender: 0,
    value: 0,
    stamp: 0,
};

// A fabric in a table of its own.
#[derive(Drop)]
pub struct Ring {
    rows: Rows,
    slots: [Message; SLOTS],
    ghost lawful: { RowsLawful rows (length slots) },
    ghost capacity: { rows.capacity ≡ ring_capacity },
}

impl Ring {
    ghost use Rattle.ring.specs.Ring.{ring_model, made_ring};

    // A ring for 1 to 8 shims; for another number it has no lanes.
    pub fn new(shims: usize) -> Ring
        ensures model { ring_model result ≡ made_ring shims }
    {
        Ring {
            rows: Rows::new(lanes_for(shims), RING_CAPACITY),
            slots: [BLANK; SLOTS],
        }
    }
}

// Two lanes a shim, and none for more shims than a fabric serves.
fn lanes_for(shims: usize) -> usize
    ensures { result ≡ lanes_for shims }
{
    if shims <= MAX_SHIMS {
        LANES_PER_SHIM * shims
    } else {
        0
    }
}

impl Slots for Ring {
    ghost backing = { no_backing };

    ghost rows = { λ r. r.rows };

    ghost room = { λ r. length r.slots };

    ghost held = { λ r. message_in r.slots };

    ghost state = { λ _ _. tt };

    ghost lender = { λ _. [] };

    ghost lawful = { λ r. r.lawful };

    ghost takes = { λ _ _ _ _. refl };

    fn rows(&self) -> &Rows {
        &self.rows
    }

    fn lane_len(&self) -> usize {
        RING_CAPACITY
    }

    fn set_span(&mut self, lane: usize, span: Span) {
        self.rows.spans[lane] = span;
    }

    fn read(&self, slot: usize) -> Message {
        self.slots[slot]
    }

    fn write(&mut self, slot: usize, msg: Message) {
        self.slots[slot] = msg;
    }
}

impl Fabric for Ring {
    ghost use Rattle.ring.specs.Ring.{ring_model};

    ghost backing = { no_backing };

    ghost model = { ring_model };

    ghost lender = { λ _. [] };

    ghost sound = { λ r. rows_sound r.rows (length r.slots) (message_in r.slots) r.lawful };

    ghost level = { λ r. rows_level r.rows (length r.slots) (message_in r.slots) r.lawful };

    fn put(&mut self, lane: usize, msg: Message) -> Result<(), FabricFault> {
        queues::put(self, lane, msg)
    }

    fn take(&mut self, lane: usize) -> Result<Message, FabricFault> {
        queues::take(self, lane)
    }

    fn look(&mut self, lane: usize) -> Result<Message, FabricFault> {
        queues::look(self, lane)
    }

    fn lane_count(&self) -> usize {
        queues::lane_count(self)
    }

    fn capacity(&self, lane: usize) -> usize {
        queues::capacity(self, lane)
    }

    fn waiting(&self, lane: usize) -> usize {
        queues::waiting(self, lane)
    }
}
